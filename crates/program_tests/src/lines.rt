//! Bundles of simulated clusters, line by line.

pub static BUNDLES: [&str; 5] = [
    // A recovery on another node: the replayed frame stands before the reply.
    r#"2 1 c1@1 j1:r e:hi:r t1 x1 t2 e:ho:r:q t2 r1@2 l1:r v1:v f1
st {"k":"tap","of":"stream","v":1}
n1 {"k":"tap","of":"node","v":1}
n2 {"k":"tap","of":"node","v":1}
c1 {"k":"tap","of":"client","v":1}
n1 {"k":"start","off":null}
n2 {"k":"start","off":null}
n1 {"k":"open","nsp":"/","pid":"p1","sid":"s1"}
c1 {"c":1,"k":"conn"}
c1 {"k":"in","t":"40{\"sid\":\"s1\",\"pid\":\"p1\"}"}
n1 {"k":"join","pid":"p1","room":"r"}
st {"k":"ev","nsp":"/","off":"1-0","rooms":["r"],"text":"2[\"hi\",\"1-0\"]"}
n1 {"k":"take","off":"1-0"}
c1 {"k":"in","t":"42[\"hi\",\"1-0\"]"}
n1 {"k":"break","pid":"p1","turn":0}
c1 {"k":"lost"}
n2 {"k":"take","off":"1-0"}
st {"except":["q"],"k":"ev","nsp":"/","off":"2-0","rooms":["r"],"text":"2[\"ho\",\"2-0\"]"}
n2 {"k":"take","off":"2-0"}
c1 {"c":2,"k":"conn"}
c1 {"k":"out","t":"40{\"pid\":\"p1\",\"offset\":\"1-0\"}"}
n2 {"k":"back","pid":"p1","turn":1}
c1 {"k":"in","t":"42[\"ho\",\"2-0\"]"}
c1 {"k":"in","t":"40{\"sid\":\"s1\",\"pid\":\"p1\"}"}
n2 {"k":"leave","pid":"p1","room":"r"}
c1 {"k":"in","t":"42[\"v\"]"}
n2 {"k":"gone","pid":"p1"}
c1 {"k":"lost"}
"#,
    // Attachments; a frame that is held is written after the one that follows it, and a later one has another word.
    r#"1 1 c1@1 e:f:::2 e:g hold1 t1 t1 e:h alter1 t1
st {"k":"tap","of":"stream","v":1}
n1 {"k":"tap","of":"node","v":1}
c1 {"k":"tap","of":"client","v":1}
n1 {"k":"start","off":null}
n1 {"k":"open","nsp":"/","pid":"p1","sid":"s1"}
c1 {"c":1,"k":"conn"}
c1 {"k":"in","t":"40{\"sid\":\"s1\",\"pid\":\"p1\"}"}
st {"bin":["AA==","AQ=="],"k":"ev","nsp":"/","off":"1-0","text":"52-[\"f\",{\"_placeholder\":true,\"num\":0},{\"_placeholder\":true,\"num\":1},\"1-0\"]"}
st {"k":"ev","nsp":"/","off":"2-0","text":"2[\"g\",\"2-0\"]"}
n1 {"k":"take","off":"1-0"}
n1 {"k":"take","off":"2-0"}
c1 {"k":"in","t":"42[\"g\",\"2-0\"]"}
c1 {"k":"in","t":"452-[\"f\",{\"_placeholder\":true,\"num\":0},{\"_placeholder\":true,\"num\":1},\"1-0\"]"}
c1 {"b":"AA==","k":"inb"}
c1 {"b":"AQ==","k":"inb"}
st {"k":"ev","nsp":"/","off":"3-0","text":"2[\"h\",\"3-0\"]"}
n1 {"k":"take","off":"3-0"}
c1 {"k":"in","t":"42[\"hx\",\"3-0\"]"}
"#,
    // Lines of a node's log that are lost, `open` and `take`, and that are written twice, `join` and `break`.
    r#"1 1 lose c1@1 repeat j1:r lose e:a v1:v t1 repeat x1
st {"k":"tap","of":"stream","v":1}
n1 {"k":"tap","of":"node","v":1}
c1 {"k":"tap","of":"client","v":1}
n1 {"k":"start","off":null}
c1 {"c":1,"k":"conn"}
c1 {"k":"in","t":"40{\"sid\":\"s1\",\"pid\":\"p1\"}"}
n1 {"k":"join","pid":"p1","room":"r"}
n1 {"k":"join","pid":"p1","room":"r"}
st {"k":"ev","nsp":"/","off":"1-0","text":"2[\"a\",\"1-0\"]"}
c1 {"k":"in","t":"42[\"v\"]"}
c1 {"k":"in","t":"42[\"a\",\"1-0\"]"}
n1 {"k":"break","pid":"p1","turn":0}
n1 {"k":"break","pid":"p1","turn":0}
c1 {"k":"lost"}
"#,
    // A session without a reply, recovered with an offset that no entry has; one whose reply has another sid; and a
    // frame with `x` in place of its digit, after which the offset of the one before is still the last that was
    // received.
    r#"1 1 u1@1 e:a t1 x1 o1@1 f1 m1@1 e:b t1 e:c:::1 garble1 t1 x1 r1@1
st {"k":"tap","of":"stream","v":1}
n1 {"k":"tap","of":"node","v":1}
c1 {"k":"tap","of":"client","v":1}
n1 {"k":"start","off":null}
n1 {"k":"open","nsp":"/","pid":"p1","sid":"s1"}
c1 {"c":1,"k":"conn"}
st {"k":"ev","nsp":"/","off":"1-0","text":"2[\"a\",\"1-0\"]"}
n1 {"k":"take","off":"1-0"}
c1 {"k":"in","t":"42[\"a\",\"1-0\"]"}
n1 {"k":"break","pid":"p1","turn":0}
c1 {"k":"lost"}
c1 {"c":2,"k":"conn"}
c1 {"k":"out","t":"40{\"pid\":\"p1\",\"offset\":\"0-0\"}"}
n1 {"k":"back","pid":"p1","turn":1}
c1 {"k":"in","t":"40{\"sid\":\"s1\",\"pid\":\"p1\"}"}
n1 {"k":"gone","pid":"p1"}
c1 {"k":"lost"}
n1 {"k":"open","nsp":"/","pid":"p2","sid":"s2"}
c1 {"c":3,"k":"conn"}
c1 {"k":"in","t":"40{\"sid\":\"x2\",\"pid\":\"p2\"}"}
st {"k":"ev","nsp":"/","off":"2-0","text":"2[\"b\",\"2-0\"]"}
n1 {"k":"take","off":"2-0"}
c1 {"k":"in","t":"42[\"b\",\"2-0\"]"}
st {"bin":["AA=="],"k":"ev","nsp":"/","off":"3-0","text":"51-[\"c\",{\"_placeholder\":true,\"num\":0},\"3-0\"]"}
n1 {"k":"take","off":"3-0"}
c1 {"k":"in","t":"x51-[\"c\",{\"_placeholder\":true,\"num\":0},\"3-0\"]"}
c1 {"b":"AA==","k":"inb"}
n1 {"k":"break","pid":"p2","turn":0}
c1 {"k":"lost"}
c1 {"c":4,"k":"conn"}
c1 {"k":"out","t":"40{\"pid\":\"p2\",\"offset\":\"2-0\"}"}
n1 {"k":"back","pid":"p2","turn":1}
c1 {"k":"in","t":"40{\"sid\":\"s2\",\"pid\":\"p2\"}"}
"#,
    // A recovery without a reply, another one that has it, and a frame without the first of its attachments.
    r#"1 1 c1@1 e:a t1 x1 e:b:::1 t1 n1@1 x1 r1@1 e:c:::2 short1 t1
st {"k":"tap","of":"stream","v":1}
n1 {"k":"tap","of":"node","v":1}
c1 {"k":"tap","of":"client","v":1}
n1 {"k":"start","off":null}
n1 {"k":"open","nsp":"/","pid":"p1","sid":"s1"}
c1 {"c":1,"k":"conn"}
c1 {"k":"in","t":"40{\"sid\":\"s1\",\"pid\":\"p1\"}"}
st {"k":"ev","nsp":"/","off":"1-0","text":"2[\"a\",\"1-0\"]"}
n1 {"k":"take","off":"1-0"}
c1 {"k":"in","t":"42[\"a\",\"1-0\"]"}
n1 {"k":"break","pid":"p1","turn":0}
c1 {"k":"lost"}
st {"bin":["AA=="],"k":"ev","nsp":"/","off":"2-0","text":"51-[\"b\",{\"_placeholder\":true,\"num\":0},\"2-0\"]"}
n1 {"k":"take","off":"2-0"}
c1 {"c":2,"k":"conn"}
c1 {"k":"out","t":"40{\"pid\":\"p1\",\"offset\":\"1-0\"}"}
n1 {"k":"back","pid":"p1","turn":1}
c1 {"k":"in","t":"451-[\"b\",{\"_placeholder\":true,\"num\":0},\"2-0\"]"}
c1 {"b":"AA==","k":"inb"}
n1 {"k":"break","pid":"p1","turn":1}
c1 {"k":"lost"}
c1 {"c":3,"k":"conn"}
c1 {"k":"out","t":"40{\"pid\":\"p1\",\"offset\":\"2-0\"}"}
n1 {"k":"back","pid":"p1","turn":2}
c1 {"k":"in","t":"40{\"sid\":\"s1\",\"pid\":\"p1\"}"}
st {"bin":["AA==","AQ=="],"k":"ev","nsp":"/","off":"3-0","text":"52-[\"c\",{\"_placeholder\":true,\"num\":0},{\"_placeholder\":true,\"num\":1},\"3-0\"]"}
n1 {"k":"take","off":"3-0"}
c1 {"k":"in","t":"452-[\"c\",{\"_placeholder\":true,\"num\":0},{\"_placeholder\":true,\"num\":1},\"3-0\"]"}
c1 {"b":"AQ==","k":"inb"}
"#,
];

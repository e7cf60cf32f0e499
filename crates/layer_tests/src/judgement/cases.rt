//! Bundles of a small cluster, what is asked of their stream, nodes, rooms, runs and sessions, and the answers.

pub static CASES: [&str; 7] = [
    // Of the last five but one none is sent again: it has an acknowledgement id; its packet is of another namespace;
    // it has no offset; it has an attachment too few. A room that is named twice counts once; an event that isn't
    // sent again is addressed to nobody.
    r#"st {"k":"tap","v":1,"of":"stream"}
st {"k":"ev","off":"1-0","nsp":"/","rooms":["r"],"except":["q"],"text":"2[\"hi\",\"1-0\"]"}
st {"k":"ev","off":"2-0","nsp":"/","rooms":["r","q","r"],"text":"2[\"hi\",\"2-0\"]"}
st {"k":"ev","off":"3-0","nsp":"/","text":"2[\"hi\",\"3-0\"]"}
st {"k":"ev","off":"4-0","nsp":"/n","rooms":["r"],"except":["q"],"text":"2/n,[\"hi\",\"4-0\"]"}
st {"k":"ev","off":"5-0","nsp":"/","rooms":["r"],"except":["q"],"text":"27[\"hi\",\"5-0\"]"}
st {"k":"ev","off":"6-0","nsp":"/","text":"2/n,[\"hi\",\"6-0\"]"}
st {"k":"ev","off":"7-0","nsp":"/","text":"2[\"hi\"]"}
st {"k":"ev","off":"8-0","nsp":"/","text":"51-[{\"_placeholder\":true,\"num\":0},\"8-0\"]"}
st {"k":"ev","off":"9-0","nsp":"/n","text":"2/n,[\"hi\",\"9-0\"]"}
? entry 1-0
1-0 at 1 of 9, sent again true 0 0
? entry 5-0
5-0 at 5 of 9, sent again false unknown unknown
? entry 6-0
6-0 at 6 of 9, sent again false unknown unknown
? entry 7-0
7-0 at 7 of 9, sent again false unknown unknown
? entry 8-0
8-0 at 8 of 9, sent again false unknown unknown
? entry 9-0
9-0 at 9 of 9, sent again true 8 8
? entry 4-5
nowhere
? addressees / r
 [1, 2], to all [3], excepting []
? addressees / q
 [2], to all [3], excepting [1, 4]
? addressees /n r
 [4], to all [9], excepting []
? addressees /m r
 [], to all [], excepting []"#,
    // Two offsets that have one rank, and offsets that don't ascend.
    r#"st {"k":"tap","v":1,"of":"stream"}
st {"k":"ev","off":"2-1","nsp":"/","text":"2[\"hi\",\"2-1\"]"}
st {"k":"ev","off":"1-1","nsp":"/","text":"2[\"hi\",\"1-1\"]"}
st {"k":"ev","off":"1-A","nsp":"/","text":"2[\"hi\",\"1-A\"]"}
? entry 1-1
1-1 at 2 of 3, sent again true 1 1
? entry 1-A
1-A at 3 of 3, sent again true 2 2
? entry 1-Q
nowhere"#,
    // The session `P` goes from `a` to `b` and back, twice. Node `c` takes an entry before an earlier one. A node is
    // of a session that one of its records names, whichever that is. The taps of the nodes `v`, `w` and `x` are of
    // version 2: `v` takes all entries, `w` up to where its cursor stands, and `x` back.
    r#"st {"k":"tap","v":1,"of":"stream"}
st {"k":"ev","off":"1-0","nsp":"/","text":"2[\"hi\",\"1-0\"]"}
st {"k":"ev","off":"2-0","nsp":"/","text":"2[\"hi\",\"2-0\"]"}
st {"k":"ev","off":"3-0","nsp":"/","text":"2[\"hi\",\"3-0\"]"}
st {"k":"ev","off":"4-0","nsp":"/","text":"2[\"hi\",\"4-0\"]"}
a {"k":"tap","v":1,"of":"node"}
a {"k":"start","off":null}
a {"k":"open","pid":"P","sid":"s1","nsp":"/"}
a {"k":"join","pid":"P","room":"r"}
a {"k":"take","off":"1-0"}
a {"k":"break","pid":"P","turn":0}
a {"k":"take","off":"2-0"}
a {"k":"take","off":"3-0"}
a {"k":"back","pid":"P","turn":2}
a {"k":"break","pid":"P","turn":2}
a {"k":"take","off":"4-0"}
b {"k":"tap","v":1,"of":"node"}
b {"k":"start","off":null}
b {"k":"take","off":"1-0"}
b {"k":"take","off":"2-0"}
b {"k":"back","pid":"P","turn":1}
b {"k":"break","pid":"P","turn":1}
b {"k":"take","off":"3-0"}
b {"k":"take","off":"4-0"}
b {"k":"back","pid":"P","turn":3}
c {"k":"tap","v":1,"of":"node"}
c {"k":"start","off":null}
c {"k":"open","pid":"Q","sid":"s2","nsp":"/"}
c {"k":"take","off":"2-0"}
c {"k":"take","off":"1-0"}
d {"k":"tap","v":1,"of":"node"}
d {"k":"start","off":null}
d {"k":"gone","pid":"P"}
d {"k":"gone","pid":"Q"}
d {"k":"gone","pid":"P"}
v {"k":"tap","v":2,"of":"node"}
v {"k":"start","off":null}
v {"k":"takes","off":"2-0"}
v {"k":"take","off":"3-0"}
v {"k":"takes","off":"4-0"}
w {"k":"tap","v":2,"of":"node"}
w {"k":"start","off":"1-0"}
w {"k":"takes","off":"3-0"}
w {"k":"takes","off":"3-0"}
x {"k":"tap","v":2,"of":"node"}
x {"k":"start","off":null}
x {"k":"takes","off":"3-0"}
x {"k":"takes","off":"2-0"}
x {"k":"takes","off":"4-0"}
? tap a
place Some(1), nodes [], clients [], cursors 0 0 0 1 1 2 3 3 3 4, in order true, own [1, 2, 4, 7, 8]
? tap c
place Some(3), nodes [], clients [], cursors 0 0 0 1, in order false, own []
? tap v
place Some(5), nodes [], clients [], cursors 0 2 3 4, in order true, own []
? tap w
place Some(6), nodes [], clients [], cursors 1 3 3, in order false, own []
? tap x
place Some(7), nodes [], clients [], cursors 0 3 3 4, in order false, own []
? tap P
place None, nodes [1, 2, 4], clients []
? tap Q
place None, nodes [3, 4], clients []"#,
    // `P` holds `r` at 1, leaves it, holds `q` from 2 over its break to 4, and `r` again at 4 and at 6. Position 3
    // was sent before the session came to `b`: it is judged by the rooms that the session came with. What another
    // session joins and leaves changes nothing.
    r#"st {"k":"tap","v":1,"of":"stream"}
st {"k":"ev","off":"1-0","nsp":"/","rooms":["r"],"text":"2[\"hi\",\"1-0\"]"}
st {"k":"ev","off":"2-0","nsp":"/","rooms":["r"],"text":"2[\"hi\",\"2-0\"]"}
st {"k":"ev","off":"3-0","nsp":"/","rooms":["q"],"text":"2[\"hi\",\"3-0\"]"}
st {"k":"ev","off":"4-0","nsp":"/","rooms":["q","r"],"text":"2[\"hi\",\"4-0\"]"}
st {"k":"ev","off":"5-0","nsp":"/n","rooms":[],"text":"2/n,[\"hi\",\"5-0\"]"}
st {"k":"ev","off":"6-0","nsp":"/","rooms":["r"],"except":["q"],"text":"2[\"hi\",\"6-0\"]"}
a {"k":"tap","v":1,"of":"node"}
a {"k":"start","off":null}
a {"k":"open","pid":"P","sid":"s1","nsp":"/"}
a {"k":"join","pid":"P","room":"r"}
a {"k":"open","pid":"Q","sid":"s2","nsp":"/"}
a {"k":"take","off":"1-0"}
a {"k":"leave","pid":"P","room":"r"}
a {"k":"join","pid":"Q","room":"r"}
a {"k":"join","pid":"P","room":"q"}
a {"k":"take","off":"2-0"}
a {"k":"break","pid":"P","turn":0}
a {"k":"take","off":"3-0"}
b {"k":"tap","v":2,"of":"node"}
b {"k":"start","off":null}
b {"k":"take","off":"1-0"}
b {"k":"takes","off":"3-0"}
b {"k":"back","pid":"P","turn":1}
b {"k":"join","pid":"P","room":"r"}
b {"k":"take","off":"4-0"}
b {"k":"leave","pid":"P","room":"r"}
b {"k":"leave","pid":"P","room":"q"}
b {"k":"take","off":"5-0"}
b {"k":"join","pid":"P","room":"r"}
b {"k":"take","off":"6-0"}
b {"k":"break","pid":"P","turn":1}
? turns
 1 (1, 10), cursors 0 2, own [1, 2, 5, 7, 9] 8
 2 (3, 12), cursors 3 6, own [3, 4, 6, 7, 9, 11] 8
q (2, 4) r (1, 1) r (4, 4) r (6, 6) s1 (1, 6) due [1, 3, 4, 6]
? walked a
q (8, 13) r (3, 5) s1 (1, 13) z (12, 12) 
? addressed /
 true: 1 2
? addressed / r
 false:
? addressed /n q
 true:"#,
    // Both nodes stand before the stream: each waits for its entry, and `a` for the session's break on `b`.
    r#"a {"k":"tap","v":1,"of":"node"}
a {"k":"start","off":"1-0"}
a {"k":"back","pid":"P","turn":1}
a {"k":"take","off":"2-0"}
a {"k":"join","pid":"P","room":"r"}
b {"k":"tap","v":1,"of":"node"}
b {"k":"start","off":null}
b {"k":"open","pid":"P","sid":"s1","nsp":"/"}
b {"k":"take","off":"1-0"}
b {"k":"break","pid":"P","turn":0}
st {"k":"tap","v":1,"of":"stream"}
st {"k":"ev","off":"1-0","nsp":"/","rooms":["r"],"text":"2[\"hi\",\"1-0\"]"}
st {"k":"ev","off":"2-0","nsp":"/","rooms":["r"],"text":"2[\"hi\",\"2-0\"]"}
? order
b 0
b 1
st 0
a 0
b 2
b 3
a 1
st 1
a 2
a 3
steps=10
 true false Node(0) 1 true true"#,
    // The node takes the second entry before the first.
    r#"st {"k":"tap","v":1,"of":"stream"}
st {"k":"other","off":"1-0"}
st {"k":"other","off":"2-0"}
b {"k":"tap","v":1,"of":"node"}
b {"k":"start","off":null}
b {"k":"take","off":"2-0"}
b {"k":"take","off":"1-0"}
? order
blocked b 1
blocked=1
"#,
    // The session `P` breaks on node `a` and is recovered on node `b`; a third event comes too late for both. `Q` has
    // no client, and only a client names `R`.
    r#"st {"k":"tap","v":1,"of":"stream"}
st {"k":"ev","off":"1-0","nsp":"/","rooms":["r"],"text":"2[\"hi\",\"1-0\"]"}
st {"k":"ev","off":"2-0","nsp":"/","rooms":["r"],"text":"2[\"hi\",\"2-0\"]"}
st {"k":"ev","off":"3-0","nsp":"/","rooms":["r"],"text":"2[\"hi\",\"3-0\"]"}
c0 {"k":"tap","v":1,"of":"client"}
c0 {"k":"conn","c":1}
c0 {"k":"in","t":"40{\"sid\":\"s3\",\"pid\":\"R\"}"}
a {"k":"tap","v":1,"of":"node"}
a {"k":"start","off":null}
a {"k":"open","pid":"P","sid":"s1","nsp":"/"}
a {"k":"join","pid":"P","room":"r"}
a {"k":"take","off":"1-0"}
a {"k":"break","pid":"P","turn":0}
b {"k":"tap","v":1,"of":"node"}
b {"k":"start","off":null}
b {"k":"take","off":"1-0"}
b {"k":"take","off":"2-0"}
b {"k":"back","pid":"P","turn":1}
b {"k":"open","pid":"Q","sid":"s2","nsp":"/"}
c1 {"k":"tap","v":1,"of":"client"}
c1 {"k":"conn","c":1}
c1 {"k":"in","t":"40{\"sid\":\"s1\",\"pid\":\"P\"}"}
c1 {"k":"in","t":"42[\"hi\",\"1-0\"]"}
c1 {"k":"conn","c":2}
c1 {"k":"out","t":"40{\"pid\":\"P\",\"offset\":\"1-0\"}"}
c1 {"k":"in","t":"42[\"hi\",\"2-0\"]"}
c1 {"k":"in","t":"40{\"sid\":\"s1\",\"pid\":\"P\"}"}
? sessions
named P Q
P yes (2, 0, 2), {"client":"c1","pid":"P","spans":[["r",1,2],["s1",1,2]],"turns":[["a",1,5,0,1],["b",3,5,2,2]]} got=2 tail=0 turns=2
Q no CLIENT, CLIENT
R no NOLOG, NOLOG"#,
];

//! Taps of clients: their stays and frames, and their packets. Records count from 0, the header not counted.

pub static CASES: [&str; 2] = [
    // `stays`: frames before the reply are the stay's too; a packet stands where it is whole; of two asks the last before
    // the reply counts.
    // `unanswered`: a replay without its reply is an orphan.
    // `silent`: a reply that names nobody is none where no event came.
    // `nobody`: where events came it is one.
    // `namespaces`: namespaces have stays of their own.
    // `asks`: the last CONNECT that asks counts, whatever it asks for.
    // `bad`: the first bad record is kept, and what comes after it.
    // `again`: a CONNECT after the reply ends a stay, of the server or of the client.
    // `leaves`: so does a DISCONNECT of either, which also is a stay alone.
    // `error`: A CONNECT_ERROR doesn't.
    // `others`: records that are no frames: no offset at the end, an acknowledgement, an offset of no event, and a packet
    // without its attachment.
    // `altered`: frames that aren't their entries: an offset of another namespace, other attachments, over WebSocket and
    // in the body of a poll, and another text.
    // `two`: two sessions one after the other, the first of which comes back.
    r#"st {"k":"tap","v":1,"of":"stream"}
st {"k":"ev","off":"1-0","nsp":"/","text":"2[\"hi\",\"1-0\"]"}
st {"k":"ev","off":"2-0","nsp":"/","text":"2[\"hi\",\"2-0\"]"}
st {"k":"ev","off":"3-0","nsp":"/","text":"2[\"hi\",\"3-0\"]"}
st {"k":"ev","off":"4-0","nsp":"/n","text":"2/n,[\"x\",\"4-0\"]"}
st {"k":"ev","off":"5-0","nsp":"/","text":"51-[\"f\",{\"_placeholder\":true,\"num\":0},\"5-0\"]","bin":["AQI="]}
st {"k":"other","off":"6-0"}
stays {"k":"tap","v":1,"of":"client"}
stays {"k":"conn","c":1}
stays {"k":"in","t":"40{\"sid\":\"s1\",\"pid\":\"P\"}"}
stays {"k":"in","t":"42[\"hi\",\"1-0\"]"}
stays {"k":"lost"}
stays {"k":"conn","c":2}
stays {"k":"out","t":"40{\"pid\":\"P\",\"offset\":\"1-0\"}"}
stays {"k":"out","t":"40{\"pid\":\"P\",\"offset\":\"1-0\"}"}
stays {"k":"in","t":"42[\"hi\",\"2-0\"]"}
stays {"k":"in","t":"40{\"sid\":\"s1\",\"pid\":\"P\"}"}
stays {"k":"in","t":"451-[\"f\",{\"_placeholder\":true,\"num\":0},\"5-0\"]"}
stays {"k":"inb","b":"AQI="}
stays {"k":"out","t":"41"}
unanswered {"k":"tap","v":1,"of":"client"}
unanswered {"k":"conn","c":1}
unanswered {"k":"in","t":"40{\"sid\":\"s1\",\"pid\":\"P\"}"}
unanswered {"k":"in","t":"42[\"hi\",\"1-0\"]"}
unanswered {"k":"conn","c":2}
unanswered {"k":"out","t":"40{\"pid\":\"P\",\"offset\":\"1-0\"}"}
unanswered {"k":"in","t":"42[\"hi\",\"2-0\"]"}
silent {"k":"tap","v":1,"of":"client"}
silent {"k":"conn","c":1}
silent {"k":"in","t":"40{\"sid\":\"s1\"}"}
nobody {"k":"tap","v":1,"of":"client"}
nobody {"k":"conn","c":1}
nobody {"k":"in","t":"40{\"sid\":\"s1\"}"}
nobody {"k":"in","t":"42[\"hi\",\"1-0\"]"}
namespaces {"k":"tap","v":1,"of":"client"}
namespaces {"k":"conn","c":1}
namespaces {"k":"poll","t":"40{\"sid\":\"s1\",\"pid\":\"P\"}\u001e451-[\"f\",{\"_placeholder\":true,\"num\":0},\"5-0\"]\u001ebAQI="}
namespaces {"k":"in","t":"42/n,[\"x\",\"4-0\"]"}
namespaces {"k":"in","t":"40/n,{\"sid\":\"s2\",\"pid\":\"Q\"}"}
namespaces {"k":"in","t":"42[\"hi\",\"1-0\"]"}
asks {"k":"tap","v":1,"of":"client"}
asks {"k":"conn","c":1}
asks {"k":"out","t":"40{\"pid\":\"P\",\"offset\":\"1-0\"}"}
asks {"k":"out","t":"40{\"pid\":7,\"offset\":\"2-0\"}"}
asks {"k":"out","t":"40{\"pid\":\"no pid\",\"offset\":5}"}
asks {"k":"out","t":"40{}"}
asks {"k":"in","t":"40{\"sid\":\"s1\",\"pid\":\"P\"}"}
bad {"k":"tap","v":1,"of":"client"}
bad {"k":"conn","c":1}
bad {"k":"in","t":"40{\"sid\":\"s1\",\"pid\":\"P\"}"}
bad {"k":"in","t":"42"}
bad {"k":"in","t":"42[\"hi\",\"1-0\"]"}
bad {"k":"in","t":"42"}
again {"k":"tap","v":1,"of":"client"}
again {"k":"conn","c":1}
again {"k":"in","t":"40{\"sid\":\"s1\",\"pid\":\"P\"}"}
again {"k":"in","t":"42[\"hi\",\"1-0\"]"}
again {"k":"in","t":"40{\"sid\":\"s1\",\"pid\":\"P\"}"}
again {"k":"in","t":"42[\"hi\",\"2-0\"]"}
again {"k":"out","t":"40{\"pid\":\"P\",\"offset\":\"1-0\"}"}
again {"k":"in","t":"42[\"hi\",\"2-0\"]"}
leaves {"k":"tap","v":1,"of":"client"}
leaves {"k":"conn","c":1}
leaves {"k":"in","t":"40{\"sid\":\"s1\",\"pid\":\"P\"}"}
leaves {"k":"in","t":"42[\"hi\",\"1-0\"]"}
leaves {"k":"in","t":"41"}
leaves {"k":"out","t":"41"}
leaves {"k":"in","t":"41"}
leaves {"k":"in","t":"431[]"}
leaves {"k":"in","t":"40{\"sid\":\"s1\",\"pid\":\"P\"}"}
error {"k":"tap","v":1,"of":"client"}
error {"k":"conn","c":1}
error {"k":"out","t":"40{\"pid\":\"P\",\"offset\":\"1-0\"}"}
error {"k":"in","t":"44{\"message\":\"no\"}"}
error {"k":"out","t":"40{\"pid\":\"P\",\"offset\":\"1-0\"}"}
error {"k":"in","t":"40{\"sid\":\"s1\",\"pid\":\"P\"}"}
error {"k":"in","t":"42[\"hi\",\"2-0\"]"}
others {"k":"tap","v":1,"of":"client"}
others {"k":"conn","c":1}
others {"k":"in","t":"40{\"sid\":\"s1\",\"pid\":\"P\"}"}
others {"k":"in","t":"42[\"hi\",\"2-0\"]"}
others {"k":"in","t":"42[\"v\",\"hello\"]"}
others {"k":"in","t":"42[\"v\",1]"}
others {"k":"in","t":"421[\"hi\",\"1-0\"]"}
others {"k":"in","t":"431[\"hi\",\"1-0\"]"}
others {"k":"in","t":"42[\"o\",\"6-0\"]"}
others {"k":"out","t":"42[\"hi\",\"1-0\"]"}
others {"k":"in","t":"451-[\"f\",\"5-0\"]"}
altered {"k":"tap","v":1,"of":"client"}
altered {"k":"conn","c":1}
altered {"k":"in","t":"40{\"sid\":\"s1\",\"pid\":\"P\"}"}
altered {"k":"in","t":"42[\"other text\",\"4-0\"]"}
altered {"k":"in","t":"452-[\"g\",\"5-0\"]"}
altered {"k":"inb","b":"AQI="}
altered {"k":"poll","t":"bBA=="}
altered {"k":"in","t":"42[\"ho\",\"2-0\"]"}
two {"k":"tap","v":1,"of":"client"}
two {"k":"conn","c":1}
two {"k":"in","t":"40{\"sid\":\"s1\",\"pid\":\"P\"}"}
two {"k":"lost"}
two {"k":"conn","c":2}
two {"k":"in","t":"40{\"sid\":\"s2\",\"pid\":\"Q\"}"}
two {"k":"lost"}
two {"k":"conn","c":3}
two {"k":"out","t":"40{\"pid\":\"P\",\"offset\":\"1-0\"}"}
two {"k":"in","t":"40{\"sid\":\"s1\",\"pid\":\"P\"}"}
? client stays
1 / reply P s1 1; (1, 2) None Some(1) [2]
2 / reply P s1 asked P 1-0 recovered 2 5; (5, 11) Some(6) Some(8) [7, 10]
naming 1 true 2 true
? client unanswered
1 / reply P s1 1; (1, 2) None Some(1) [2]
2 / asked P 1-0 2; (4, 5) Some(4) None [5]
orphan, naming 1 true
? client silent
1 / reply nobody s1; (1, 1) None Some(1) []
naming
? client nobody
1 / reply nobody s1 1; (1, 2) None Some(1) [2]
orphan, naming
? client namespaces
1 / reply P s1 5 1; (1, 4) None Some(1) [1, 4]
1 /n reply Q s2 4; (2, 3) None Some(3) [2]
naming 1 true
? client asks
1 / reply P s1 asked no pid nowhere; (1, 5) Some(3) Some(5) []
naming 1 true
? client bad
1 / reply P s1 1; (1, 3) None Some(1) [3]
bad 2, naming 1 true
? client again
1 / reply P s1 1; (1, 2) None Some(1) [2]
1 / reply P s1 2; (3, 4) None Some(3) [4]
1 / asked P 1-0 2; (5, 6) Some(5) None [6]
orphan, naming 1 true 1 true
? client leaves
1 / reply P s1 1; (1, 3) None Some(1) [2]
1 /; (4, 4) None None []
1 /; (5, 5) None None []
1 / reply P s1; (6, 7) None Some(7) []
naming 1 true 1 true
? client error
1 / reply P s1 asked P 1-0 recovered 2; (1, 5) Some(3) Some(4) [5]
naming 1 true
? client others
1 / reply P s1 2; (1, 7) None Some(1) [2]
naming 1 true
? client altered
1 / reply P s1 4 not Text { at: 1 } of 2["other text","4-0"] 5 not Text { at: 1 } of 52-["g","5-0"] [1, 2] [4] 2 not Text { at: 4 } of 2["ho","2-0"]; (1, 6) None Some(1) [2, 5, 6]
naming 1 true
? client two
1 / reply P s1; (1, 1) None Some(1) []
2 / reply Q s2; (4, 4) None Some(4) []
3 / reply P s1 asked P 1-0 recovered; (7, 8) Some(7) Some(8) []
naming 1 true 3 true
? tap P
place None, nodes [], clients [1, 2, 5, 6, 7, 8, 9, 10, 11, 12, 13]
? client st
no client"#,
    // `body`: a packet stands where the last of its attachments does.
    // `late`: a ping may stand between.
    // `refused`: a refused body gives no packet; after a refused packet the next one is read; the first bad record
    // counts.
    // `cut`: attachments still awaited when a connection or the tap ends: the packet didn't arrive, and no record is bad.
    // `sends`: of what the client sends, a CONNECT and a DISCONNECT are packets; all else is read past, also what doesn't
    // decode.
    // `replies`: a pid is of 1 to 128 visible bytes; a `sid` that is missing or no text is empty; other kinds are no
    // replies.
    r#"body {"k":"tap","v":1,"of":"client"}
body {"k":"conn","c":1}
body {"k":"poll","t":"40{\"sid\":\"s1\",\"pid\":\"P\"}\u001e451-[\"f\",{\"_placeholder\":true,\"num\":0},\"1-0\"]\u001ebAQI="}
body {"k":"in","t":"40/n,{\"sid\":\"s2\",\"pid\":\"Q\"}"}
body {"k":"in","t":"42/n,[\"x\",\"2-0\"]"}
late {"k":"tap","v":1,"of":"client"}
late {"k":"conn","c":7}
late {"k":"in","t":"452-[\"f\",{\"_placeholder\":true,\"num\":0},{\"_placeholder\":true,\"num\":1},\"4-0\"]"}
late {"k":"in","t":"2"}
late {"k":"inb","b":"AQI="}
late {"k":"inb","b":"BA=="}
refused {"k":"tap","v":1,"of":"client"}
refused {"k":"conn","c":1}
refused {"k":"in","t":"42[\"x\"]"}
refused {"k":"poll","t":"42[\"x\"]\u001e7x"}
refused {"k":"in","t":"47"}
refused {"k":"inb","b":"AQ=="}
refused {"k":"in","t":"41"}
cut {"k":"tap","v":1,"of":"client"}
cut {"k":"conn","c":1}
cut {"k":"in","t":"451-[\"f\",{\"_placeholder\":true,\"num\":0},\"1-0\"]"}
cut {"k":"lost"}
cut {"k":"conn","c":2}
cut {"k":"in","t":"451-[\"f\",{\"_placeholder\":true,\"num\":0},\"1-0\"]"}
cut {"k":"conn","c":3}
cut {"k":"in","t":"42[\"x\",\"1-0\"]"}
cut {"k":"in","t":"451-[\"f\",{\"_placeholder\":true,\"num\":0},\"1-0\"]"}
sends {"k":"tap","v":1,"of":"client"}
sends {"k":"conn","c":1}
sends {"k":"out","t":"40{\"pid\":\"P\",\"offset\":\"1-0\"}"}
sends {"k":"out","t":"42[\"x\"]"}
sends {"k":"out","t":"3"}
sends {"k":"out","t":"7"}
sends {"k":"out","t":"49"}
sends {"k":"out","t":"41/n,"}
sends {"k":"lost"}
replies {"k":"tap","v":1,"of":"client"}
replies {"k":"conn","c":1}
replies {"k":"in","t":"40/n,{\"sid\":\"s2\"}"}
replies {"k":"in","t":"40{\"sid\":1,\"pid\":\"P Q\"}"}
replies {"k":"in","t":"40[\"pid\"]"}
replies {"k":"in","t":"40"}
replies {"k":"in","t":"42[{\"sid\":\"s1\",\"pid\":\"P\"}]"}
replies {"k":"in","t":"44{\"sid\":\"s1\",\"pid\":\"P\"}"}
? packets body
4 records, bad None
connection 1
1 in Connect / 0{"sid":"s1","pid":"P"} reply P s1
1 in BinaryEvent / 51-["f",{"_placeholder":true,"num":0},"1-0"] [1, 2]
2 in Connect /n 0/n,{"sid":"s2","pid":"Q"} reply Q s2
3 in Event /n 2/n,["x","2-0"]
? packets late
5 records, bad None
connection 7
4 in BinaryEvent / 52-["f",{"_placeholder":true,"num":0},{"_placeholder":true,"num":1},"4-0"] [1, 2] [4]
? packets refused
6 records, bad Some(2)
connection 1
1 in Event / 2["x"]
5 in Disconnect / 1
? packets cut
8 records, bad None
connection 1
connection 2
connection 3
6 in Event / 2["x","1-0"]
? packets sends
8 records, bad None
connection 1
1 out Connect /
6 out Disconnect /n
? packets replies
7 records, bad None
connection 1
1 in Connect /n 0/n,{"sid":"s2"} reply nobody s2
2 in Connect / 0{"sid":1,"pid":"P Q"} reply nobody 
3 in Connect / 0["pid"] reply nobody 
4 in Connect / 0 reply nobody 
5 in Event / 2[{"sid":"s1","pid":"P"}]
6 in ConnectError / 4{"sid":"s1","pid":"P"}"#,
];

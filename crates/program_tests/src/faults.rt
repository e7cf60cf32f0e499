//! Injected faults, and acts that are not possible.

pub static FAULTS: [&str; 65] = [
    r#"1 1 c1@1 j1:r e:hi:r e:ho:r t1 t1
yes p1 got=2 tail=0 turns=1
sessions=1 yes=1 no=0
"#,
    r#"1 1 c1@1 j1:r e:hi:r e:ho:r drop1 t1 t1
no p1 LOST 1-0
sessions=1 yes=0 no=1
"#,
    r#"1 1 c1@1 j1:r e:hi:r e:ho:r double1 t1 t1
no p1 DOUBLED 1-0
sessions=1 yes=0 no=1
"#,
    r#"1 1 c1@1 j1:r e:hi:r e:ho:r hold1 t1 t1
no p1 SWAPPED 1-0
sessions=1 yes=0 no=1
"#,
    r#"1 1 c1@1 j1:r e:hi:r e:ho:r alter1 t1 t1
no p1 CONTENT 1-0
sessions=1 yes=0 no=1
"#,
    r#"2 1 c1@1 j1:r e:hi:r t1 x1 g1@2 t2
no p1 DOUBLED 1-0
sessions=1 yes=0 no=1
"#,
    // in a replay
    r#"2 1 c1@1 e:a t1 drop1 x1 e:b e:c t2 t2 t2 r1@2
no p1 LOST 2-0
sessions=1 yes=0 no=1
"#,
    r#"2 1 c1@1 e:a t1 double1 x1 e:b e:c t2 t2 t2 r1@2
no p1 DOUBLED 2-0
sessions=1 yes=0 no=1
"#,
    r#"2 1 c1@1 e:a t1 hold1 x1 e:b e:c t2 t2 t2 r1@2
no p1 SWAPPED 2-0
sessions=1 yes=0 no=1
"#,
    r#"2 1 c1@1 e:a t1 alter1 x1 e:b e:c t2 t2 t2 r1@2
no p1 CONTENT 2-0
sessions=1 yes=0 no=1
"#,
    // with attachments
    r#"1 1 c1@1 e:a:::2 e:b:::1 drop1 t1 t1
no p1 LOST 1-0
sessions=1 yes=0 no=1
"#,
    r#"1 1 c1@1 e:a:::2 e:b:::1 double1 t1 t1
no p1 DOUBLED 1-0
sessions=1 yes=0 no=1
"#,
    r#"1 1 c1@1 e:a:::2 e:b:::1 hold1 t1 t1
no p1 SWAPPED 1-0
sessions=1 yes=0 no=1
"#,
    r#"1 1 c1@1 e:a:::2 e:b:::1 alter1 t1 t1
no p1 CONTENT 1-0
sessions=1 yes=0 no=1
"#,
    // a frame without an offset between, and a frame that is held when its connection ends
    r#"1 1 c1@1 e:a e:b hold1 t1 v1:hi t1
no p1 SWAPPED 1-0
sessions=1 yes=0 no=1
"#,
    r#"2 1 c1@1 e:z t1 e:a e:b hold1 t1 x1 t2 t2 t2 r1@2
no p1 LOST 2-0
sessions=1 yes=0 no=1
"#,
    // a fault that waits over the end of a connection
    r#"1 1 c1@1 drop1 f1 c1@1 e:a e:b t1 t1
yes p1 got=0 tail=0 turns=1
no p2 LOST 1-0
sessions=2 yes=1 no=1
"#,
    // a frame that is no packet: live, in a replay, with attachments
    r#"1 1 c1@1 j1:r e:hi:r e:ho:r garble1 t1 t1
no p1 FRAME
sessions=1 yes=0 no=1
"#,
    r#"2 1 c1@1 e:a t1 garble1 x1 e:b e:c t2 t2 t2 r1@2
no p1 FRAME
sessions=1 yes=0 no=1
"#,
    r#"1 1 c1@1 e:a:::2 e:b:::1 garble1 t1 t1
no p1 FRAME
sessions=1 yes=0 no=1
"#,
    // a frame without the first of its attachments, live and in a replay: what comes next is no packet, of all sessions
    // of the client, and of no other's; where nothing comes on the connection, the frame never did; and where a frame has
    // no attachments, none is lost
    r#"1 1 c1@1 e:a:::2 e:b short1 t1 t1
no p1 FRAME
sessions=1 yes=0 no=1
"#,
    r#"1 1 c1@1 e:a:::1 e:b:::1 short1 t1 t1
no p1 FRAME
sessions=1 yes=0 no=1
"#,
    r#"2 1 c1@1 e:a t1 short1 x1 e:b:::1 t2 t2 r1@2
no p1 FRAME
sessions=1 yes=0 no=1
"#,
    r#"1 2 c1@1 c2@1 e:a:::1 e:b short1 t1 t1 f1 c1@1
no p1 FRAME
yes p2 got=2 tail=0 turns=1
no p3 FRAME
sessions=3 yes=1 no=2
"#,
    r#"1 1 c1@1 e:a:::1 short1 t1 x1
yes p1 got=0 tail=1 turns=1
sessions=1 yes=1 no=0
"#,
    r#"1 1 c1@1 e:a e:b:::1 short1 t1 t1 x1 r1@1
yes p1 got=2 tail=0 turns=2
sessions=1 yes=1 no=0
"#,
    // a line of a node's log that is lost: `open`, `join`, `leave`, `break`, `back`, `take`, `gone`
    r#"1 1 lose c1@1 e:a t1
no p1 NOLOG
sessions=1 yes=0 no=1
"#,
    r#"1 1 c1@1 lose j1:r e:a:r t1
no p1 EXTRA 1-0
sessions=1 yes=0 no=1
"#,
    r#"1 1 c1@1 j1:r lose l1:r e:a:r e:b t1 t1
no p1 LOST 1-0
sessions=1 yes=0 no=1
"#,
    r#"2 1 c1@1 e:a t1 lose x1 t2 r1@2
no p1 CHAIN
sessions=1 yes=0 no=1
"#,
    r#"2 1 c1@1 e:a t1 x1 t2 lose r1@2 e:b t2
no p1 EXTRA 2-0
sessions=1 yes=0 no=1
"#,
    r#"1 1 c1@1 e:a e:b lose t1 t1
no p1 ORDER
sessions=1 yes=0 no=1
"#,
    r#"1 1 c1@1 e:a t1 lose f1
yes p1 got=1 tail=0 turns=1
sessions=1 yes=1 no=0
"#,
    // and one that is written twice
    r#"1 1 repeat c1@1 e:a t1
no p1 CHAIN
sessions=1 yes=0 no=1
"#,
    r#"1 1 c1@1 repeat j1:r e:a:r t1
yes p1 got=1 tail=0 turns=1
sessions=1 yes=1 no=0
"#,
    r#"1 1 c1@1 j1:r repeat l1:r e:a:r e:b t1 t1
yes p1 got=1 tail=0 turns=1
sessions=1 yes=1 no=0
"#,
    r#"2 1 c1@1 e:a t1 repeat x1 t2 r1@2
no p1 CHAIN
sessions=1 yes=0 no=1
"#,
    r#"2 1 c1@1 e:a t1 x1 t2 repeat r1@2
no p1 CHAIN
sessions=1 yes=0 no=1
"#,
    r#"1 1 c1@1 e:a repeat t1
no p1 ORDER
sessions=1 yes=0 no=1
"#,
    r#"1 1 c1@1 e:a t1 repeat f1
no p1 CHAIN
sessions=1 yes=0 no=1
"#,
    // lines of the stream and of a client leave such a fault waiting, and after one another may come
    r#"1 1 lose e:a c1@1 t1
no p1 NOLOG
sessions=1 yes=0 no=1
"#,
    r#"1 1 c1@1 e:a repeat v1:hi t1
no p1 ORDER
sessions=1 yes=0 no=1
"#,
    r#"1 1 c1@1 repeat j1:r lose l1:r e:a:r e:b t1 t1
no p1 LOST 1-0
sessions=1 yes=0 no=1
"#,
    // a session without a reply, without events and with them; what comes after it in its client's tap
    r#"1 1 u1@1
no p1 CLIENT
sessions=1 yes=0 no=1
"#,
    r#"1 1 u1@1 e:a t1
no p1 CLIENT
sessions=1 yes=0 no=1
"#,
    r#"1 1 u1@1 f1 c1@1 e:a t1
no p1 CLIENT
yes p2 got=1 tail=0 turns=1
sessions=2 yes=1 no=1
"#,
    r#"1 1 u1@1 e:a t1 f1 c1@1
no p1 CLIENT
no p2 ORPHAN
sessions=2 yes=0 no=2
"#,
    r#"1 1 u1@1 e:a t1 x1 r1@1
no p1 ORPHAN
sessions=1 yes=0 no=1
"#,
    // a recovery without a reply: with events that are sent again, and with those after it, which are of no known session
    // for all sessions of the client, and for no other's; and without events
    r#"1 1 c1@1 e:a t1 x1 e:b t1 n1@1 x1
no p1 ORPHAN
sessions=1 yes=0 no=1
"#,
    r#"2 1 c1@1 e:a t1 x1 t2 n1@2 e:b t2
no p1 ORPHAN
sessions=1 yes=0 no=1
"#,
    r#"1 2 c1@1 c2@1 e:a t1 x1 e:b t1 n1@1 x1 r1@1 f1 c1@1
no p1 ORPHAN
yes p2 got=2 tail=0 turns=1
no p3 ORPHAN
sessions=3 yes=1 no=2
"#,
    r#"1 1 c1@1 e:a t1 x1 n1@1
yes p1 got=1 tail=0 turns=2
sessions=1 yes=1 no=0
"#,
    r#"1 1 c1@1 e:a t1 x1 n1@1 x1 e:b t1 r1@1
yes p1 got=2 tail=0 turns=3
sessions=1 yes=1 no=0
"#,
    // a reply with another sid, and after it one with the session's own
    r#"1 1 m1@1 e:a t1
no p1 NAMES
sessions=1 yes=0 no=1
"#,
    r#"1 1 m1@1 e:a t1 x1 r1@1
no p1 NAMES
sessions=1 yes=0 no=1
"#,
    // a recovery that is asked for with an offset that no entry has, without a replay and with one; and one that is not
    r#"2 1 c1@1 e:a t1 x1 t2 o1@2
no p1 WINDOW 2
sessions=1 yes=0 no=1
"#,
    r#"2 1 c1@1 e:a t1 x1 e:b t2 t2 o1@2
no p1 WINDOW 2
sessions=1 yes=0 no=1
"#,
    r#"2 1 c1@1 e:a t1 x1 t2 r1@2 x1 o1@2
no p1 WINDOW 3
sessions=1 yes=0 no=1
"#,
    // others, of whose bundles `tests/cases` has the explanations
    r#"1 1 lose c1@1 e:a t1 x1
no p1 NOLOG
sessions=1 yes=0 no=1
"#,
    r#"1 1 c1@1 e:a e:b garble1 t1 t1
no p1 FRAME
sessions=1 yes=0 no=1
"#,
    r#"1 1 u1@1 e:a t1 f1 c1@1 e:b t1
no p1 CLIENT
no p2 ORPHAN
sessions=2 yes=0 no=2
"#,
    r#"1 1 c1@1 e:hi alter1 t1
no p1 CONTENT 1-0
sessions=1 yes=0 no=1
"#,
    r#"1 1 c1@1 e:a e:b double1 t1 t1
no p1 DOUBLED 1-0
sessions=1 yes=0 no=1
"#,
    r#"1 1 c1@1 e:a e:b hold1 t1 t1
no p1 SWAPPED 1-0
sessions=1 yes=0 no=1
"#,
    r#"1 1 c1@1 j1:r e:a:r e:b drop1 t1 t1
no p1 LOST 1-0
sessions=1 yes=0 no=1
"#,
];

/// Schedules of two nodes and two clients, and the number of the act that is not possible.
pub static NOT_POSSIBLE: [&str; 53] = [
    "c1@1 j1:r e:hi:r t1 x1 r1@2 t2 -> 5",
    "t1 -> 0",
    "e:a t1 t1 -> 2",
    "e:a t0 -> 1",
    "e:a t3 -> 1",
    "c0@1 -> 0",
    "c3@1 -> 0",
    "c1@0 -> 0",
    "c1@3 -> 0",
    "c1@1 c1@2 -> 1",
    "v1:hi -> 0",
    "c1@1 x1 v1:hi -> 2",
    "j1:r -> 0",
    "c1@1 j1: -> 1",
    "l1:r -> 0",
    "x1 -> 0",
    "c1@1 x1 x1 -> 2",
    "f1 -> 0",
    "c1@1 x1 r1@1 -> 2",
    "c1@1 e:a t1 f1 r1@1 -> 4",
    "c1@1 e:a t1 x1 g1@1 -> 4",
    "c1@1 e:a drop1 t1 x1 r1@1 -> 5",
    "drop1 hold1 -> 1",
    "c1@1 e:a hold1 t1 double1 -> 4",
    "e:h1 -> 0",
    "e:abcdefghijklmnopqrstuvwxyzabcdefg -> 0",
    "e:a:::65 -> 0",
    "u1@0 -> 0",
    "u3@1 -> 0",
    "c1@1 u1@1 -> 1",
    "u1@1 c1@1 -> 1",
    "m1@3 -> 0",
    "m0@1 -> 0",
    "c1@1 m1@2 -> 1",
    "o1@1 -> 0",
    "c1@1 x1 o1@1 -> 2",
    "c1@1 e:a t1 o1@1 -> 3",
    "c1@1 e:a t1 x1 o1@2 -> 4",
    "c1@1 e:a garble1 t1 x1 r1@1 -> 5",
    "garble1 drop1 -> 1",
    "hold1 garble1 -> 1",
    "garble3 -> 0",
    "n1@1 -> 0",
    "c1@1 e:a t1 n1@1 -> 3",
    "c1@1 e:a t1 x1 n1@2 -> 4",
    "c1@1 e:a t1 x1 n1@1 r1@1 -> 5",
    "c1@1 e:a:::1 short1 t1 x1 r1@1 -> 5",
    "short1 garble1 -> 1",
    "short3 -> 0",
    "lose lose -> 1",
    "repeat lose -> 1",
    "lose e:a lose -> 2",
    "lose c1@1 repeat lose -> 3",
];

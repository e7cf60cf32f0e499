//! Schedules without faults, with recoveries: each is audited yes for every session.

pub static WITHOUT_FAULTS: [&str; 50] = [
    r#"2 1 c1@1 e:a t1 x1 t2 r1@2
yes p1 got=1 tail=0 turns=2
sessions=1 yes=1 no=0
"#,
    r#"2 1 c1@1 e:a e:b t1 x1 t2 t2 r1@2
yes p1 got=2 tail=0 turns=2
sessions=1 yes=1 no=0
"#,
    r#"2 1 c1@1 e:a e:b e:c t1 x1 t2 t2 r1@2 t2
yes p1 got=3 tail=0 turns=2
sessions=1 yes=1 no=0
"#,
    r#"2 1 c1@1 j1:r e:a:r e:b:q e:c:r t1 x1 t2 t2 t2 r1@2
yes p1 got=2 tail=0 turns=2
sessions=1 yes=1 no=0
"#,
    r#"2 1 c1@1 j1:r e:a:r t1 x1 t2 r1@2 l1:r e:b:r t2
yes p1 got=1 tail=0 turns=2
sessions=1 yes=1 no=0
"#,
    r#"2 1 c1@1 e:a t1 x1 e:b t2 t2 r1@2 j1:q e:c:q t2
yes p1 got=3 tail=0 turns=2
sessions=1 yes=1 no=0
"#,
    r#"2 1 c1@1 e:a::s1 e:b t1 t1 x1 t2 t2 r1@2 e:c t2
yes p1 got=2 tail=0 turns=2
sessions=1 yes=1 no=0
"#,
    r#"2 1 c1@1 e:a t1 x1 t2 e:b t2 r1@2 x1 t1 r1@1 e:c t1
yes p1 got=3 tail=0 turns=3
sessions=1 yes=1 no=0
"#,
    r#"1 1 c1@1 e:a t1 x1 e:b t1 r1@1
yes p1 got=2 tail=0 turns=2
sessions=1 yes=1 no=0
"#,
    r#"1 1 c1@1 e:a t1 x1 r1@1 x1 r1@1 e:b t1
yes p1 got=2 tail=0 turns=3
sessions=1 yes=1 no=0
"#,
    r#"2 1 c1@1 e:a:::1 t1 x1 e:b:::2 t2 t2 r1@2
yes p1 got=2 tail=0 turns=2
sessions=1 yes=1 no=0
"#,
    r#"2 1 c1@1 j1:r e:a:r::3 t1 e:b:r::1 x1 t2 t2 r1@2 e:c:r::2 t2
yes p1 got=3 tail=0 turns=2
sessions=1 yes=1 no=0
"#,
    r#"1 1 c1@1 e:a:::64 t1 x1 e:b:::11 t1 r1@1
yes p1 got=2 tail=0 turns=2
sessions=1 yes=1 no=0
"#,
    r#"2 1 c1@1 v1:hi e:a t1 v1:ho x1 t2 r1@2 v1:ha e:b t2
yes p1 got=2 tail=0 turns=2
sessions=1 yes=1 no=0
"#,
    r#"1 1 c1@1 e:a t1 v1:v x1 e:b t1 r1@1 v1:v
yes p1 got=2 tail=0 turns=2
sessions=1 yes=1 no=0
"#,
    r#"2 1 c1@1 e:a t1 x1 e:b t2 t2 r1@2 x1 e:c t2
yes p1 got=2 tail=0 turns=2
sessions=1 yes=1 no=0
"#,
    r#"2 1 c1@1 e:a e:b t1 x1 t2 r1@2 f1 t2
yes p1 got=1 tail=0 turns=2
sessions=1 yes=1 no=0
"#,
    r#"2 1 c1@1 e:a t1 e:b t1 x1 t2 t2 e:c t2 r1@2 f1 e:d t2
yes p1 got=3 tail=0 turns=2
sessions=1 yes=1 no=0
"#,
    r#"2 1 e:a e:b t1 c1@1 t1 x1 t2 t2 r1@2 e:c t2
yes p1 got=2 tail=0 turns=2
sessions=1 yes=1 no=0
"#,
    r#"2 1 e:a t1 e:b t2 t2 c1@2 e:c t2 x1 t1 t1 r1@1
yes p1 got=1 tail=0 turns=2
sessions=1 yes=1 no=0
"#,
    r#"2 2 c1@1 c2@2 e:a t1 t2 x1 e:b t2 r1@2 t1
yes p1 got=2 tail=0 turns=2
yes p2 got=2 tail=0 turns=1
sessions=2 yes=2 no=0
"#,
    r#"2 2 c1@1 c2@1 e:a t1 x1 x2 e:b t2 t2 r2@2 r1@2 e:c t2
yes p1 got=3 tail=0 turns=2
yes p2 got=3 tail=0 turns=2
sessions=2 yes=2 no=0
"#,
    r#"2 2 c1@1 c2@1 j1:r j2:q e:a:r,q t1 x2 e:b:q t2 t2 r2@2 e:c:r t1 t1
yes p1 got=2 tail=0 turns=1
yes p2 got=2 tail=0 turns=2
sessions=2 yes=2 no=0
"#,
    r#"2 2 c2@1 c1@1 e:a::s1 t1 e:b::s2 t1 x1 x2 t2 t2 r1@2 r2@2 e:c t2
yes p1 got=2 tail=0 turns=2
yes p2 got=2 tail=0 turns=2
sessions=2 yes=2 no=0
"#,
    r#"2 2 c1@1 c2@2 j1:r j2:r e:a:r:s1 e:b:r:s2 t1 t1 t2 t2 x1 r1@2
yes p1 got=1 tail=0 turns=2
yes p2 got=1 tail=0 turns=1
sessions=2 yes=2 no=0
"#,
    r#"2 2 c1@1 e:a t1 x1 c2@2 t2 r1@2 e:b t2
yes p1 got=2 tail=0 turns=2
yes p2 got=2 tail=0 turns=1
sessions=2 yes=2 no=0
"#,
    r#"2 2 c1@1 c2@1 j1:r e:a:r t1 l1:r e:b:r t1 x1 e:c t2 t2 t2 r1@2 t1
yes p1 got=2 tail=0 turns=2
yes p2 got=1 tail=0 turns=1
sessions=2 yes=2 no=0
"#,
    r#"2 2 c1@1 c2@1 e:a t1 f2 x1 e:b t2 t2 r1@2
yes p1 got=2 tail=0 turns=2
yes p2 got=1 tail=0 turns=1
sessions=2 yes=2 no=0
"#,
    r#"3 2 c1@1 c2@2 e:a t1 t2 t3 x1 x2 e:b t3 r1@3 r2@3 e:c t3
yes p1 got=3 tail=0 turns=2
yes p2 got=3 tail=0 turns=2
sessions=2 yes=2 no=0
"#,
    r#"3 2 c1@1 c2@3 j1:r j2:r e:a:r t1 t3 x2 t2 r2@2 e:b:r:s1 t2 t1
yes p1 got=1 tail=0 turns=1
yes p2 got=2 tail=0 turns=2
sessions=2 yes=2 no=0
"#,
    r#"3 1 c1@1 e:a e:b e:c e:d t1 x1 t2 t2 r1@2 t2 x1 t3 t3 t3 t3 r1@3
yes p1 got=4 tail=0 turns=3
sessions=1 yes=1 no=0
"#,
    r#"3 1 c1@1 e:a t1 x1 e:b t2 t2 r1@2 e:c t2 x1 e:d t3 t3 t3 t3 r1@3
yes p1 got=4 tail=0 turns=3
sessions=1 yes=1 no=0
"#,
    r#"3 1 c1@1 j1:r e:a:r t1 x1 e:b t2 t2 r1@2 l1:r j1:q e:c:q t2 x1 e:d:r e:f:q t3 t3 t3 t3 t3 r1@3
yes p1 got=4 tail=0 turns=3
sessions=1 yes=1 no=0
"#,
    r#"3 1 c1@1 j1:r e:a:r t1 x1 e:b:r t2 t2 r1@2 x1 e:c:r t1 t1 r1@1 x1 e:d:r t3 t3 t3 t3 r1@3
yes p1 got=4 tail=0 turns=4
sessions=1 yes=1 no=0
"#,
    r#"3 2 c1@1 c2@2 e:a t1 t2 x1 x2 t3 r1@3 r2@3 e:b t3 x1 e:c t1 t1 r1@1 t3
yes p1 got=3 tail=0 turns=3
yes p2 got=3 tail=0 turns=2
sessions=2 yes=2 no=0
"#,
    r#"2 1 c1@1 j1:r j1:q e:a:r t1 x1 e:b:q e:c:p t2 t2 t2 r1@2 e:d:r t2
yes p1 got=3 tail=0 turns=2
sessions=1 yes=1 no=0
"#,
    r#"2 1 c1@1 j1:r j1:r l1:r e:a:r e:b t1 t1 x1 e:c:r t2 t2 t2 r1@2 e:d t2
yes p1 got=2 tail=0 turns=2
sessions=1 yes=1 no=0
"#,
    r#"2 1 c1@1 l1:s1 e:a:s1 e:b t1 t1 x1 e:c:s1 t2 t2 t2 r1@2
yes p1 got=1 tail=0 turns=2
sessions=1 yes=1 no=0
"#,
    r#"2 1 c1@1 e:a:s1 t1 x1 e:b:s1 e:c:s2 t2 t2 t2 r1@2
yes p1 got=2 tail=0 turns=2
sessions=1 yes=1 no=0
"#,
    r#"2 1 c1@1 j1:r e:a:r:q t1 j1:q e:b:r:q t1 x1 e:c:r:q e:d:q t2 t2 t2 t2 r1@2
yes p1 got=2 tail=0 turns=2
sessions=1 yes=1 no=0
"#,
    r#"2 1 c1@1 e:a t1 x1 e:b t2 t2 r1@2 f1 c1@1 e:c t1 t1
yes p1 got=2 tail=0 turns=2
yes p2 got=2 tail=0 turns=1
sessions=2 yes=2 no=0
"#,
    r#"2 1 c1@1 e:a t1 x1 t2 r1@2 x1 c1@2 e:b t2 x1 t1 r1@1
yes p1 got=1 tail=0 turns=2
yes p2 got=1 tail=0 turns=2
sessions=2 yes=2 no=0
"#,
    r#"2 2 c1@1 c2@1 e:a t1 f1 c1@1 e:b t1 x1 t2 t2 r1@2 e:c t2 t1
yes p1 got=1 tail=0 turns=1
yes p2 got=3 tail=0 turns=1
yes p3 got=2 tail=0 turns=2
sessions=3 yes=3 no=0
"#,
    r#"2 4 c1@1 c2@1 c3@2 c4@2 e:a t1 t2 x1 x3 e:b t1 t2 r1@2 r3@1 e:c t1 t2
yes p1 got=3 tail=0 turns=2
yes p2 got=3 tail=0 turns=1
yes p3 got=3 tail=0 turns=2
yes p4 got=3 tail=0 turns=1
sessions=4 yes=4 no=0
"#,
    r#"2 4 c4@1 c3@1 c2@1 c1@1 j1:r j2:r j3:q j4:q e:a:r t1 e:b:q t1 x1 x4 e:c t1 t2 t2 t2 r1@2 r4@2
yes p1 got=2 tail=0 turns=2
yes p2 got=2 tail=0 turns=1
yes p3 got=2 tail=0 turns=1
yes p4 got=2 tail=0 turns=2
sessions=4 yes=4 no=0
"#,
    r#"4 1 c1@1 e:a t1 x1 t2 r1@2 x1 t3 r1@3 x1 t4 r1@4 x1 r1@1 e:b t1
yes p1 got=2 tail=0 turns=5
sessions=1 yes=1 no=0
"#,
    r#"4 2 c1@1 c2@4 e:a:::1 t1 t4 x1 e:b::s2:2 t2 t2 r1@2 x2 t3 t3 r2@3 e:c t2 t3
yes p1 got=3 tail=0 turns=2
yes p2 got=2 tail=0 turns=2
sessions=2 yes=2 no=0
"#,
    r#"64 1 c1@64 e:a t64 x1 t1 r1@1 e:b t1
yes p1 got=2 tail=0 turns=2
sessions=1 yes=1 no=0
"#,
    r#"2 1 c1@1 e:a t1 x1 e:b:r t2 t2 r1@2 e:c:q t2
yes p1 got=1 tail=0 turns=2
sessions=1 yes=1 no=0
"#,
    r#"2 2 c1@1 c2@2 e:a t1 x1 e:b::s1 t2 t2 r1@2 e:c::s1,s2 t2
yes p1 got=1 tail=0 turns=2
yes p2 got=2 tail=0 turns=1
sessions=2 yes=2 no=0
"#,
];

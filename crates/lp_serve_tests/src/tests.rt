use super::cases::*;
use std::test::Fail;

const LOOK: [Step<'static>; 5] = [
    Step::Accept(1),
    Step::Piece(1, b"lo"),
    Step::Piece(1, &[255, 253, 1, b'o', b'k']),
    Step::Piece(1, b"\r\n"),
    Step::Piece(0, b"stop\n"),
];

#[test]
fn runs_come_to_what_they_should(rt: HostRuntime) -> Result<(), Fail> {
    let alloc = rt.alloc();
    let look = Case {
        steps: &LOOK,
        much: 1,
        fail: &[],
        fail_files: &[],
        takes: &[],
        turns: 100,
        ends: Ends::Done,
        record: b"connect 1\nline 1 4\nlook\nend\n",
        operator: b"",
        first: b"Hello\r\nWhat?\r\n",
        second: b"",
        closed: [0, 0, 0],
    };
    let cases = [
        Case { ..look },
        // one byte at each send, and once more at the end of each round
        Case {
            takes: &[1],
            operator: b"",
            first: b"Hello\r\n",
            second: b"",
            ..look
        },
        Case {
            takes: &[7],
            ..look
        },
        Case {
            takes: &[0],
            operator: b"",
            first: b"",
            second: b"",
            ..look
        },
        // a poll that fails ends it, and the record has no end
        Case {
            fail: &[1],
            ends: Ends::WireFault,
            record: b"",
            operator: b"",
            first: b"",
            second: b"",
            ..look
        },
        Case {
            fail: &[2],
            ends: Ends::WireFault,
            record: b"connect 1\n",
            operator: b"",
            first: b"Hello\r\n",
            second: b"",
            ..look
        },
        Case {
            fail: &[5],
            ends: Ends::WireFault,
            record: b"connect 1\nline 1 4\nlook\n",
            ..look
        },
        // so many polls
        Case {
            turns: 4,
            ends: Ends::TurnsSpent,
            ..look
        },
        Case {
            steps: &[],
            turns: 3,
            ends: Ends::TurnsSpent,
            record: b"end\n",
            operator: b"",
            first: b"",
            second: b"",
            ..look
        },
        Case {
            turns: 0,
            ends: Ends::TurnsSpent,
            record: b"end\n",
            operator: b"",
            first: b"",
            second: b"",
            ..look
        },
        // a second connection is closed, and its lines are no events
        Case {
            steps: &[
                Step::Accept(1),
                Step::Accept(2),
                Step::Piece(2, b"hi\n"),
                Step::Piece(0, b"stop\n"),
            ],
            record: b"connect 1\nconnect 2\nend\n",
            operator: b"",
            first: b"Hello\r\n",
            second: b"",
            closed: [0, 0, 1],
            ..look
        },
        // it is lost: it is forgotten, and not closed again
        Case {
            steps: &[
                Step::Accept(1),
                Step::Accept(2),
                Step::Lost(2),
                Step::Piece(2, b"hi\n"),
                Step::Piece(0, b"stop\n"),
            ],
            record: b"connect 1\nconnect 2\ngone 2\nend\n",
            operator: b"",
            first: b"Hello\r\n",
            second: b"",
            closed: [0, 0, 1],
            ..look
        },
        // what fits no script is no event: the same number again, bytes of nobody, a line of one that is gone, a moment that falls
        Case {
            steps: &[
                Step::Accept(1),
                Step::Accept(1),
                Step::Piece(7, b"x\n"),
                Step::Piece(1, b"lo"),
                Step::Lost(1),
                Step::Piece(1, b"ok\n"),
                Step::Accept(1),
                Step::Tick(5),
                Step::Tick(4),
                Step::Tick(1_000_000_000_001),
                Step::Piece(0, b"stop\n"),
            ],
            record: b"connect 1\ngone 1\ntick 5\nend\n",
            operator: b"",
            first: b"Hello\r\n",
            second: b"",
            ..look
        },
        // the operator, in pieces; nothing counts behind `stop`
        Case {
            steps: &[
                Step::Accept(0),
                Step::Piece(0, b"look\nreload /no.c\nreload a.c\nreload /a.c\nsto"),
                Step::Piece(0, b"p\nlook\nreload /a.c\n"),
                Step::Accept(1),
            ],
            record: b"reload /a.c 7\nint x;\n\nend\n",
            operator: b"unknown\nreload failed\nreload failed\nok\n",
            first: b"",
            second: b"",
            ..look
        },
        // half a line of one span is no line of the next
        Case {
            steps: &[
                Step::Accept(0),
                Step::Piece(0, b"sto"),
                Step::Lost(0),
                Step::Accept(0),
                Step::Piece(0, b"p\n"),
                Step::Piece(0, b"stop\n"),
            ],
            record: b"end\n",
            operator: b"unknown\n",
            first: b"",
            second: b"",
            ..look
        },
        // a changed file that cannot be written
        Case {
            steps: &[
                Step::Accept(1),
                Step::Piece(1, b"save\n"),
                Step::Piece(0, b"stop\n"),
            ],
            fail_files: &[1, 2, 3, 4, 5, 6, 7, 8, 9],
            ends: Ends::FilesFault,
            record: b"connect 1\nline 1 4\nsave\nend\n",
            ..look
        },
        // one that is written at a later try
        Case {
            steps: &[
                Step::Accept(1),
                Step::Piece(1, b"save\n"),
                Step::Piece(0, b"stop\n"),
            ],
            fail_files: &[1],
            record: b"connect 1\nline 1 4\nsave\nend\n",
            ..look
        },
    ];
    for case in &cases {
        assert!(rt; holds(alloc, case)?);
    }
    Ok(())
}

#[test]
fn a_slow_connection_is_gone(rt: HostRuntime) -> Result<(), Fail> {
    let alloc = rt.alloc();
    let slow = Case {
        steps: &[
            Step::Accept(1),
            Step::Piece(1, b"hi\n"),
            Step::Piece(0, b"stop\n"),
        ],
        much: 40000,
        fail: &[],
        fail_files: &[],
        takes: &[0],
        turns: 100,
        ends: Ends::Done,
        record: b"connect 1\ngone 1\nend\n",
        operator: b"",
        first: b"",
        second: b"",
        closed: [0, 1, 0],
    };
    assert!(rt; holds(alloc, &slow)?);
    Ok(())
}

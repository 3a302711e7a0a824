//! A row for each reason, as it is told.
use lp_explain::explain;
use std::alloc::Global;
use std::test::Fail;

/// Scripts, the byte at which no item stands in each, and what is told of it.
const ROWS: [(&str, u64, &str); 60] = [
    // the head
    (
        "",
        0,
        "line 1: a script begins with its head line, `mudscript 1 SEED MOMENT`",
    ),
    (
        "mudscript 2 0 0\nstart\nend\n",
        0,
        "line 1, mudscript 2 0 0: a script begins with its head line, `mudscript 1 SEED MOMENT`",
    ),
    (
        "mudscript 1  0\n",
        0,
        "line 1, mudscript 1  0: the seed is missing",
    ),
    (
        "mudscript 1 x 0\n",
        0,
        "line 1, mudscript 1 x 0: the seed is no number in decimal digits",
    ),
    (
        "mudscript 1 18446744073709551616 0\n",
        0,
        "line 1, mudscript 1 18446744073709551616 0: the seed is above 18446744073709551615",
    ),
    (
        "mudscript 1 0\n",
        0,
        "line 1, mudscript 1 0: the moment is missing",
    ),
    (
        "mudscript 1 0 05\n",
        0,
        "line 1, mudscript 1 0 05: the moment has a leading zero",
    ),
    (
        "mudscript 1 0 1000000000001\n",
        0,
        "line 1, mudscript 1 0 1000000000001: the moment is above 1000000000000",
    ),
    (
        "mudscript 1 0 5",
        0,
        "line 1, mudscript 1 0 5: the script ends within this item",
    ),
    (
        "mudscript 1 0 5\r\n",
        0,
        "line 1, mudscript 1 0 5?: a carriage return stands before the line end",
    ),
    // files
    (
        "mudscript 1 0 5\nmudscript 1 0 5\n",
        16,
        "line 2, mudscript 1 0 5: the head line `mudscript 1 SEED MOMENT` stands once, at the beginning",
    ),
    (
        "mudscript 1 0 5\n",
        16,
        "line 2: the script ends before `start`",
    ),
    (
        "mudscript 1 0 5\n\nstart\n",
        16,
        "line 2: no item begins so: here stands `file PATH BYTES` or `start`",
    ),
    (
        "mudscript 1 0 5\nFile /a 0\n\n",
        16,
        "line 2, File /a 0: no item begins so: here stands `file PATH BYTES` or `start`",
    ),
    (
        "mudscript 1 0 5\ntick 9\n",
        16,
        "line 2, tick 9: events and `end` stand only behind `start`",
    ),
    (
        "mudscript 1 0 5\nend\n",
        16,
        "line 2, end: events and `end` stand only behind `start`",
    ),
    (
        "mudscript 1 0 5\nstart \n",
        16,
        "line 2, start : behind this word the line ends",
    ),
    (
        "mudscript 1 0 5\nfile\n",
        16,
        "line 2, file: the path is missing",
    ),
    (
        "mudscript 1 0 5\nfile /a/../b 0\n\n",
        16,
        "line 2, file /a/../b 0: a path has parts of letters, digits, `_`, `-` and `.` with a `/` before each, none is `.` or `..`, and at most 256 bytes",
    ),
    (
        "mudscript 1 0 5\nfile /b 0\n\nfile /a 0\n\n",
        27,
        "line 4, file /a 0: the paths rise by their bytes, and this one is that of the file before or stands below it",
    ),
    (
        "mudscript 1 0 5\nfile /b 0\n\nfile /b 0\n\n",
        27,
        "line 4, file /b 0: the paths rise by their bytes, and this one is that of the file before or stands below it",
    ),
    (
        "mudscript 1 0 5\nfile /a\n",
        16,
        "line 2, file /a: the count of bytes is missing",
    ),
    (
        "mudscript 1 0 5\nfile /a x\n",
        16,
        "line 2, file /a x: the count of bytes is no number in decimal digits",
    ),
    (
        "mudscript 1 0 5\nfile /a 03\nabc\n",
        16,
        "line 2, file /a 03: the count of bytes has a leading zero",
    ),
    (
        "mudscript 1 0 5\nfile /a 67108865\nabc\n",
        16,
        "line 2, file /a 67108865: the count of bytes is above 67108864",
    ),
    (
        "mudscript 1 0 5\nfile /a 4\na\nb\nc\nstart\n",
        16,
        "line 2, file /a 4: the count of bytes is 4, and behind so many, in line 5, stands no line end",
    ),
    (
        "mudscript 1 0 5\nfile /a 9\na\nb\n",
        16,
        "line 2, file /a 9: the count of bytes is 9, and the script ends behind 4 of them",
    ),
    (
        "mudscript 1 0 5\nfile /a 4\na\nb\n",
        16,
        "line 2, file /a 4: the script ends before the line end behind its bytes",
    ),
    // events
    (
        "mudscript 1 0 5\nstart\n",
        22,
        "line 3: the script ends without `end`",
    ),
    (
        "mudscript 1 0 5\nstart\nmudscript 1 0 5\n",
        22,
        "line 3, mudscript 1 0 5: the head line `mudscript 1 SEED MOMENT` stands once, at the beginning",
    ),
    (
        "mudscript 1 0 5\nstart\nstart\n",
        22,
        "line 3, start: `start` stands once",
    ),
    (
        "mudscript 1 0 5\nstart\nfile /a 0\n\n",
        22,
        "line 3, file /a 0: files stand only before `start`; behind it a text is changed by `reload`",
    ),
    (
        "mudscript 1 0 5\nstart\nlook \u{e9}\0\n",
        22,
        "line 3, look ???: no item begins so: here stands `connect`, `line`, `gone`, `tick`, `reload`, `swap` or `end`",
    ),
    (
        "mudscript 1 0 5\nstart\ntick\n",
        22,
        "line 3, tick: the moment is missing",
    ),
    (
        "mudscript 1 0 5\nstart\ntick -1\n",
        22,
        "line 3, tick -1: the moment is no number in decimal digits",
    ),
    (
        "mudscript 1 0 5\nstart\ntick 1000000000001\n",
        22,
        "line 3, tick 1000000000001: the moment is above 1000000000000",
    ),
    (
        "mudscript 1 0 5\nstart\ntick 7\ntick 6\n",
        29,
        "line 4, tick 6: the clock is 7",
    ),
    (
        "mudscript 1 0 5\nstart\ntick 0\n",
        22,
        "line 3, tick 0: the clock is 5",
    ),
    (
        "mudscript 1 0 5\nstart\nconnect\n",
        22,
        "line 3, connect: the connection's number is missing",
    ),
    (
        "mudscript 1 0 5\nstart\nconnect 0\n",
        22,
        "line 3, connect 0: connections are numbered from 1",
    ),
    (
        "mudscript 1 0 5\nstart\nconnect 4294967296\n",
        22,
        "line 3, connect 4294967296: the connection's number is above 4294967295",
    ),
    (
        "mudscript 1 0 5\nstart\nconnect 3\nconnect 5\ngone 3\nconnect 4\n",
        49,
        "line 6, connect 4: a new connection's number is above all before, of which 5 is the highest",
    ),
    (
        "mudscript 1 0 5\nstart\nconnect 3\nconnect 5\ngone 3\ngone 6\n",
        49,
        "line 6, gone 6: connection 6 has not come",
    ),
    (
        "mudscript 1 0 5\nstart\nconnect 3\nconnect 5\ngone 3\ngone 3\n",
        49,
        "line 6, gone 3: connection 3 is gone, or never came",
    ),
    (
        "mudscript 1 0 5\nstart\nconnect 3\nconnect 5\ngone 3\nline 3 0\n\n",
        49,
        "line 6, line 3 0: connection 3 is gone, or never came",
    ),
    (
        "mudscript 1 0 5\nstart\nconnect 3\nconnect 5\ngone 3\nline x 0\n\n",
        49,
        "line 6, line x 0: the connection's number is no number in decimal digits",
    ),
    (
        "mudscript 1 0 5\nstart\nconnect 3\nconnect 5\ngone 3\nline 5\nlook\n",
        49,
        "line 6, line 5: the count of bytes is missing",
    ),
    (
        "mudscript 1 0 5\nstart\nconnect 3\nconnect 5\ngone 3\nline 5 4097\nlook\n",
        49,
        "line 6, line 5 4097: the count of bytes is above 4096",
    ),
    (
        "mudscript 1 0 5\nstart\nconnect 3\nconnect 5\ngone 3\nline 5 6\nlook\nend\n",
        49,
        "line 6, line 5 6: the count of bytes is 6, and behind 4 of them stands a line end, which no line holds",
    ),
    (
        "mudscript 1 0 5\nstart\nconnect 3\nconnect 5\ngone 3\nline 5 6\nlo\0k\n",
        49,
        "line 6, line 5 6: behind 2 of its bytes stands a byte 0 or 13, which no line holds",
    ),
    (
        "mudscript 1 0 5\nstart\nconnect 3\nconnect 5\ngone 3\nline 5 3\nlook\nend\n",
        49,
        "line 6, line 5 3: the count of bytes is 3, and behind so many, in line 7, stands no line end",
    ),
    (
        "mudscript 1 0 5\nstart\nconnect 3\nconnect 5\ngone 3\nline 5 4\nlo",
        49,
        "line 6, line 5 4: the count of bytes is 4, and the script ends behind 2 of them",
    ),
    (
        "mudscript 1 0 5\nstart\nreload a.c 0\n\n",
        22,
        "line 3, reload a.c 0: a path has parts of letters, digits, `_`, `-` and `.` with a `/` before each, none is `.` or `..`, and at most 256 bytes",
    ),
    (
        "mudscript 1 0 5\nstart\nreload /a.c 1\n\nend\n",
        22,
        "line 3, reload /a.c 1: the count of bytes is 1, and behind so many, in line 5, stands no line end",
    ),
    (
        "mudscript 1 0 5\nstart\nswap /a.c\n",
        22,
        "line 3, swap /a.c: an object's name is a path that does not end with `.c`, and for a clone `#` and its number",
    ),
    (
        "mudscript 1 0 5\nstart\nswap /a#1 123456789012345678901234567890123456789012345678901234567890\n",
        22,
        "line 3, swap /a#1 12345678901234567890123456789012345678901234567890: an object's name is a path that does not end with `.c`, and for a clone `#` and its number",
    ),
    (
        "mudscript 1 0 5\nstart\nend of it\n",
        22,
        "line 3, end of it: behind this word the line ends",
    ),
    (
        "mudscript 1 0 5\nstart\nend\n\n",
        26,
        "line 4: nothing stands behind `end`",
    ),
    // where no reader ends
    (
        "mudscript 1 0 5\nstart\ntick 9\nend\n",
        22,
        "line 3, tick 9: no item stands here",
    ),
    (
        "mudscript 1 0 5\nstart\ntick 9\nend\n",
        24,
        "line 3, ck 9: no item stands here",
    ),
];

/// Whether this line is told of a script.
fn is_told(alloc: Global, script: &str, at: u64, line: &str) -> bool {
    match explain(alloc, script.as_bytes(), at) {
        Ok(told) => told.as_str() == line,
        Err(_) => false,
    }
}

#[test]
fn each_reason_is_told(rt: HostRuntime) -> Result<(), Fail> {
    for (script, at, line) in ROWS {
        assert!(rt; is_told(rt.alloc(), script, at, line), "{line}");
    }
    Ok(())
}

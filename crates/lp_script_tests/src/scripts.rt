use lp_events::event::Event;
use lp_events::item::Item;
use lp_events::octets::{ObjectName, Octets};
use lp_events::out::{Out, Outs};
use lp_io::{MemSink, MemSource, PutFault};
use lp_script::*;
use lp_tree::path::FilePath;
use lp_values::text::Text;
use std::alloc::Global;
use std::test::Fail;

fn sink(alloc: Global, take: usize) -> MemSink {
    MemSink::new(alloc, Vec::new(alloc), take)
}

fn octets(alloc: Global, text: &str) -> Result<Octets, Fail> {
    Ok(Octets::from_slice(alloc, text.as_bytes())?)
}

fn path(alloc: Global, text: &str) -> Result<FilePath, Fail> {
    Ok(FilePath::from_str(alloc, text)?)
}

fn to(alloc: Global, k: u32, text: &str) -> Result<Out, Fail> {
    Ok(Out::Text(k, Text::from_str(alloc, text)?))
}

fn log(alloc: Global, text: &str) -> Result<Out, Fail> {
    Ok(Out::Log(Text::from_str(alloc, text)?))
}

// One item of each kind.
fn items(alloc: Global) -> Result<[Item; 10], Fail> {
    let name = ObjectName::from_string(String::from_str(alloc, "/obj/coin#7")?);
    Ok([
        Item::Head(u64::MAX, 1000),
        Item::File(path(alloc, "/secure/master.c")?, octets(alloc, "int x;\n")?),
        Item::Start,
        Item::Event(Event::Connect(4294967295)),
        Item::Event(Event::Line(4294967295, octets(alloc, "say h\u{e9}")?)),
        Item::Event(Event::Tick(1000000000000)),
        Item::Event(Event::Reload(path(alloc, "/a.c")?, octets(alloc, "")?)),
        Item::Event(Event::Swap(name)),
        Item::Event(Event::Gone(4294967295)),
        Item::End,
    ])
}

const SPELLED: &str =
    "mudscript 1 18446744073709551615 1000\nfile /secure/master.c 7\nint x;\n\nstart\nconnect 4294967295\nline 4294967295 7\nsay h\u{e9}\ntick 1000000000000\nreload /a.c 0\n\nswap /obj/coin#7\ngone 4294967295\nend\n";

fn source(alloc: Global, text: &str, failing: &[u64]) -> Result<MemSource, Fail> {
    let bytes = lp_io::Octets::from_vec(text.as_bytes().to_vec(alloc)?);
    Ok(MemSource::new(bytes, failing.to_vec(alloc)?))
}

#[test]
fn items_are_read_and_written_back(rt: HostRuntime) -> Result<(), Fail> {
    let mut input = source(rt.alloc(), SPELLED, &[])?;
    let mut out = sink(rt.alloc(), 5);
    let mut reader = Reader::new(rt.alloc());
    for _ in 0..10 {
        let item = reader.next(&mut input).ok().ok_or("an item stands here")?;
        assert_eq!(rt; write_item(&mut out, &item), Ok(()));
    }
    assert_eq!(rt; out.as_slice(), SPELLED.as_bytes());
    // The last item is answered again, and stands where it stood.
    assert_eq!(rt; reader.at(), SPELLED.len() as u64 - 4);
    assert!(rt; matches!(reader.next(&mut input), Ok(Item::End)));
    assert_eq!(rt; reader.at(), SPELLED.len() as u64 - 4);
    Ok(())
}

/// Inputs, and the offset of the item that is not spelled or does not fit.
const BAD: [(&str, u64); 9] = [
    ("", 0),
    ("mudscript 1 0 0", 0),
    ("mudscript 1 00 0\n", 0),
    ("mudscript 1 0 0\n", 16),
    ("mudscript 1 0 0\nend\n", 16),
    ("mudscript 1 0 0\nfile /a/../b 0\n\n", 16),
    ("mudscript 1 0 0\nfile /b 0\n\nfile /a 0\n\n", 27),
    ("mudscript 1 0 5\nstart\ntick 4\nend\n", 22),
    ("mudscript 1 0 0\nstart\nend\n\n", 26),
];

#[test]
fn bad_items_are_named_by_their_offset(rt: HostRuntime) -> Result<(), Fail> {
    for (text, at) in BAD {
        let mut input = source(rt.alloc(), text, &[])?;
        let mut reader = Reader::new(rt.alloc());
        let mut fault = None;
        for _ in 0..4 {
            if let Err(e) = reader.next(&mut input) {
                fault = Some(e);
            }
        }
        assert_eq!(rt; fault, Some(ScriptFault::BadScript { at }), "{text}");
    }
    Ok(())
}

#[test]
fn a_failed_read_is_answered_again(rt: HostRuntime) -> Result<(), Fail> {
    let mut input = source(rt.alloc(), SPELLED, &[1])?;
    let mut reader = Reader::new(rt.alloc());
    for _ in 0..3 {
        assert!(rt; matches!(reader.next(&mut input), Err(ScriptFault::InputFault)));
    }
    assert_eq!(rt; input.calls(), 1);
    Ok(())
}

#[test]
fn items_have_one_spelling(rt: HostRuntime) -> Result<(), Fail> {
    let mut out = sink(rt.alloc(), 1);
    for item in items(rt.alloc())? {
        assert_eq!(rt; write_item(&mut out, &item), Ok(()));
    }
    assert_eq!(rt; out.as_slice(), SPELLED.as_bytes());
    Ok(())
}

fn outs(alloc: Global, list: Vec<Out>) -> Result<Outs, Fail> {
    let mut outs = Outs::new(alloc);
    for out in list {
        outs.push(out)?;
    }
    Ok(outs)
}

// Neighbouring texts are joined, also over empty ones; empty texts give nothing; log records stay.
#[test]
fn texts_are_joined(rt: HostRuntime) -> Result<(), Fail> {
    let alloc = rt.alloc();
    let list = vec![in alloc;
        to(alloc, 1, "")?,
        to(alloc, 1, "Hel")?,
        to(alloc, 2, "")?,
        to(alloc, 1, "l\u{f6}\n")?,
        to(alloc, 2, "x")?,
        Out::Hide(2),
        to(alloc, 2, "y")?,
        log(alloc, "")?,
        log(alloc, "a\n")?,
        Out::Show(2),
        Out::Close(1),
        to(alloc, 3, "")?,
    ]?;
    let mut out = sink(alloc, 1);
    assert_eq!(rt; write_outs(&mut out, &outs(alloc, list)?), Ok(()));
    let expected =
        "to 1 7\nHell\u{f6}\n\nto 2 1\nx\nhide 2\nto 2 1\ny\nlog 0\n\nlog 2\na\n\nshow 2\nclose 1\n";
    assert_eq!(rt; out.as_slice(), expected.as_bytes());
    Ok(())
}

// A text of more characters than are encoded at once.
#[test]
fn long_texts_are_written(rt: HostRuntime) -> Result<(), Fail> {
    let alloc = rt.alloc();
    let line = "\u{1f600}1234567890123456789012345678901234567890123456789012345678901234567890\n";
    let list = vec![in alloc; to(alloc, 1, line)?, to(alloc, 1, line)?]?;
    let mut out = sink(alloc, 64);
    assert_eq!(rt; write_outs(&mut out, &outs(alloc, list)?), Ok(()));
    assert_eq!(rt;
        out.as_slice(),
        format!(in alloc; "to 1 150\n{line}{line}\n")?.as_bytes()
    );
    Ok(())
}

// A sink that takes no byte, and one that fails at its third write.
#[test]
fn a_sink_may_refuse(rt: HostRuntime) -> Result<(), Fail> {
    let alloc = rt.alloc();
    let outs = outs(alloc, vec![in alloc; to(alloc, 1, "Hello\n")?]?)?;
    let mut none = sink(alloc, 0);
    assert_eq!(rt; write_outs(&mut none, &outs), Err(PutFault::ZeroTaken));
    assert_eq!(rt; none.as_slice(), b"".as_slice());
    let mut failing = MemSink::new(alloc, vec![in alloc; 3]?, 64);
    assert_eq!(rt; write_outs(&mut failing, &outs), Err(PutFault::Failed));
    assert_eq!(rt; failing.as_slice(), b"to 1".as_slice());
    Ok(())
}

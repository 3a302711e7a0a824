use lp_instr::efun::Efun;

/// Words, and the efuns that they name.
static WORDS: [(&[char], Option<Efun>); 4] = [
    (&['r', 'm'], Some(Efun::Rm)),
    (&['c', 'o', 'p', 'y'], Some(Efun::Copy)),
    (&['c', 'o', 'p', 'Y'], None),
    (&[], None),
];

#[test]
fn names(rt: HostRuntime) {
    for i in 0..WORDS.len() {
        assert!(rt; Efun::named(WORDS[i].0) == WORDS[i].1, "{i}");
    }
    assert!(rt; Efun::Sprintf.name() == "sprintf");
    assert!(rt; Efun::ThisObject.number() == 0);
    assert!(rt; Efun::from_number(82) == Some(Efun::RestoreObject));
    assert!(rt; Efun::from_number(83).is_none());
    assert!(rt; Efun::CallOther.allows(2) && Efun::CallOther.allows(300));
    assert!(rt; !Efun::CallOther.allows(1) && !Efun::Write.allows(2));
    assert!(rt; Efun::AddAction.arity().most == Some(3));
}

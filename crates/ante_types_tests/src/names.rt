use ante_pack::{Name, NameFault, name_from_text, name_text};

/// Texts and their numbers, which were computed apart from the program.
const NAMES: [(&str, u64); 10] = [
    ("eosio", 6138663577826885632),
    ("eosio.token", 6138663591592764928),
    ("", 0),
    ("zzzzzzzzzzzzj", 18446744073709551615),
    ("a", 3458764513820540928),
    (".a", 108086391056891904),
    ("k", 9223372036854775808),
    ("............1", 1),
    ("...........1", 16),
    ("pheen3bf3w5h2", 12345678901234567890),
];

#[test]
fn names_are_read_and_written(rt: HostRuntime) {
    for (text, number) in NAMES {
        assert_eq!(rt; name_from_text(text), Ok(Name(number)), "{text}");
        let (bytes, len) = name_text(Name(number));
        assert_eq!(rt; &bytes[..len], text.as_bytes(), "{text}");
    }
}

#[test]
fn other_texts_are_read_or_refused_at_their_place(rt: HostRuntime) {
    for (text, answer) in [
        ("a.", Ok(Name(3458764513820540928))),
        ("zzzzzzzzzzzzk", Err(NameFault::BadLast)),
        ("eosio!", Err(NameFault::BadChar { at: 5 })),
        ("aaaaaaaaaaaaA", Err(NameFault::BadChar { at: 12 })),
        ("!aaaaaaaaaaaz", Err(NameFault::BadChar { at: 0 })),
        ("aaaaaaaaaaaaaa", Err(NameFault::TooLong)),
        ("!!!!!!!!!!!!!!", Err(NameFault::TooLong)),
    ] {
        assert_eq!(rt; name_from_text(text), answer, "{text}");
    }
}

use crate::words::{Command, Wanted, read_command};
use mru_items::{MruFilter, Query};
use std::alloc::{AllocError, Global};
use std::test::Fail;

/// The command of a text's words, parted by spaces.
fn command_of(alloc: Global, text: &str) -> Result<Option<Command>, AllocError> {
    let mut words = Vec::new(alloc);
    for word in text.split_whitespace() {
        words.push(String::from_str(alloc, word)?)?;
    }
    read_command(alloc, words.as_slice())
}

/// What a text asks for of the clients, where it does.
fn query_of(alloc: Global, text: &str) -> Result<Option<Query>, AllocError> {
    let Some(command) = command_of(alloc, text)? else {
        return Ok(None);
    };
    match command.what {
        Wanted::Clients { query } => Ok(Some(query)),
        _ => Ok(None),
    }
}

#[test]
fn options_stand_in_any_order(rt: HostRuntime) -> Result<(), Fail> {
    let all = Query {
        filter: MruFilter {
            mincount: 1,
            resall: 0,
            resany: 0,
        },
        limit: None,
        frags: 32,
    };
    let some = Query {
        filter: MruFilter {
            mincount: 4_294_967_295,
            resall: 0x05d0,
            resany: 0xf,
        },
        limit: Some(256),
        frags: 128,
    };
    for (text, query) in [
        ("::1 mrulist", all),
        (
            "::1 mrulist resany=0xF frags=128 mincount=4294967295 limit=256 resall=0x05d0",
            some,
        ),
        (
            "::1 mrulist limit=256 mincount=4294967295 frags=128 resall=0x5D0 resany=0x000f",
            some,
        ),
    ] {
        assert_eq!(rt; query_of(rt.alloc(), text)?, Some(query), "{text}");
    }
    Ok(())
}

#[test]
fn other_words_are_no_options(rt: HostRuntime) -> Result<(), Fail> {
    for text in [
        "::1 mrulist limit=0",
        "::1 mrulist limit=257",
        "::1 mrulist limit=01",
        "::1 mrulist limit=",
        "::1 mrulist limit",
        "::1 mrulist frags=0",
        "::1 mrulist frags=129",
        "::1 mrulist mincount=0",
        "::1 mrulist mincount=4294967296",
        "::1 mrulist resall=0x",
        "::1 mrulist resall=0x00001",
        "::1 mrulist resall=0X1",
        "::1 mrulist resany=0xg",
        "::1 mrulist resany=15",
        "::1 mrulist frags=1 limit=2 frags=1",
        "::1 mrulist resany=0x1 resany=0x2",
        "::1 mrulist kod=1",
        "::1 mrulists",
    ] {
        assert!(rt; command_of(rt.alloc(), text)?.is_none(), "{text}");
    }
    Ok(())
}

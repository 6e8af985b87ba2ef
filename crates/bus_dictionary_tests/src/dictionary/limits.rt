//! Large dictionaries, and what refused memory leaves.

use super::{entry_of, read};
use crate::expect::{holds, same};
use bus_dictionary::{BitName, DictFault, Dictionary, Standing, set_names};
use bus_rows::POLLS;
use std::alloc::Global;
use std::process::Abort;

/// An entry of 253 octets with a name for each of its bits, from the last to the first.
fn named_bits(rt: &impl Abort, alloc: Global) -> String {
    let mut text = String::new(alloc);
    text.push_str("version = 1\n[[frame]]\ntype = 7\nname = 'all'\nlength = 253\nbits = [\n")
        .expect(rt, "memory");
    for at in (0..2024u16).rev() {
        writeln!(text, "{{ at = {at}, name = 'the-bit-at-place-{at}' }},").expect(rt, "memory");
    }
    text.push_str("]\n").expect(rt, "memory");
    text
}

/// 2024 names in one entry, in more octets of text than sixteen bits count.
#[test]
fn many_names(rt: HostRuntime) {
    let text = named_bits(&rt, rt.alloc());
    holds(&rt, text.len() > 65536, "more text than sixteen bits count");
    let dictionary = read(&rt, rt.alloc(), text.as_str());
    let entry = entry_of(&rt, &dictionary, 7);
    let rest = [0xFF; 253];
    assert_eq!(rt; rest.len(), entry.length());
    let mut count = 0u16;
    for BitName { at, name } in set_names(entry, &rest) {
        let want = format!(in rt.alloc(); "the-bit-at-place-{count}").expect(&rt, "memory");
        same(&rt, at, count, want.as_str());
        same(&rt, name.as_str(), want.as_str(), want.as_str());
        count = count.saturating_add(1);
    }
    same(&rt, count, 2024, "how many names there are");
}

/// An entry for each of the 256 types, of which those below 128 are answered by those above.
#[test]
fn many_entries(rt: HostRuntime) {
    let mut text = String::from_str(rt.alloc(), "version = 1\n").expect(&rt, "memory");
    for ftype in 0..=255u8 {
        let length = ftype % 254;
        let answered = ftype < 128;
        let entry = format!(in rt.alloc();
            "[[frame]]\ntype = {ftype}\nname = 'n{ftype}'\nlength = {length}\nanswered = {answered}\n"
        ).expect(&rt, "memory");
        text.push_str(entry.as_str()).expect(&rt, "memory");
    }
    let dictionary = read(&rt, rt.alloc(), text.as_str());
    same(&rt, dictionary.longest(), 256, "the longest frame");
    for ftype in 0..=255u8 {
        let entry = entry_of(&rt, &dictionary, ftype);
        let name = format!(in rt.alloc(); "n{ftype}").expect(&rt, "memory");
        let name = name.as_str();
        same(&rt, entry.name(), name, name);
        same(&rt, entry.length(), usize::from(ftype % 254), name);
        same(&rt, entry.answered(), ftype < 128, name);
    }
}

/// The dictionary of a text. One refusal of memory is passed over, and a second is an answer.
fn read_again(alloc: Global, text: &str) -> Result<Dictionary, DictFault> {
    match Dictionary::read(alloc, text) {
        Err(DictFault::Memory) => Dictionary::read(alloc, text),
        answer => answer,
    }
}

/// To be run with each request for memory refused in turn: after a refusal the next attempt
/// succeeds, and what was read asks for no more.
#[test]
fn refused_memory(rt: HostRuntime) {
    let polls = read_again(rt.alloc(), POLLS).expect(&rt, "a dictionary");
    let fault = read_again(rt.alloc(), "version = 1\nframe = [ 1 ]").err();
    same(
        &rt,
        fault,
        Some(DictFault::BadType(1)),
        "why a text is refused",
    );
    same(&rt, polls.longest(), 5, "the longest frame");
    let state = entry_of(&rt, &polls, 129);
    same(&rt, state.name(), "state", "the name of type 129");
    let rest = [0x01, 0x02];
    assert_eq!(rt; rest.len(), state.length());
    let mut places = set_names(state, &rest).map(|bit| bit.at);
    let three = [places.next(), places.next(), places.next()];
    same(&rt, three, [Some(0), Some(9), None], "the bits that are 1");
    let octets = [0x10, 0x83, 0x81, 0x01, 0x02, 0x6E, 0x1F];
    let want = Standing::Known {
        station: 16,
        ftype: 129,
    };
    same(
        &rt,
        Standing::read(&octets, &polls),
        want,
        "the standing of a state",
    );
}

/// To be run with each request for memory refused in turn: an empty dictionary makes none.
#[test]
fn empty_takes_no_memory(rt: HostRuntime) {
    let empty = Dictionary::empty(rt.alloc());
    same(&rt, empty.longest(), 256, "the longest frame");
    for ftype in 0..=255u8 {
        holds(
            &rt,
            empty.entry(ftype).is_none(),
            format_args!("type {ftype}"),
        );
    }
    let want = Standing::Unknown {
        station: 16,
        ftype: 0,
    };
    let octets = [0x10, 0x83, 0x00, 0xFD, 0xE5];
    same(
        &rt,
        Standing::read(&octets, &empty),
        want,
        "the standing of a call",
    );
}

//! Observers that write what is seen, or count it.

use crate::text::{push_seen, push_seen_on};
use bus_dictionary::Dictionary;
use bus_pairing::{Line, SeenEvent};
use bus_watch::ReportObserver;

/// An observer that writes what is seen, and of two lines on which.
#[derive(Drop)]
pub struct Writing;

impl ReportObserver<String> for Writing {
    ghost observes = { λ d l before seen m behind. Unit {0} };

    ghost has_room = { λ l more. Unit {0} };

    fn observe(
        &mut self,
        line: Option<Line>,
        seen_event: &SeenEvent,
        octets: &[u8],
        _dictionary: &Dictionary,
        text: &mut String,
    ) {
        let seen = seen_event.with_octets(octets);
        let _ = match line {
            Some(line) => push_seen_on(text, line, &seen),
            None => push_seen(text, &seen),
        };
    }

    ghost observes_none = { λ d l text. tt };

    ghost observes_more = { λ d k l m before between behind seen more told further. tt };

    ghost has_less = { λ l more less fewer room. tt };
}

/// An observer that counts the reports, in no memory.
#[derive(Drop)]
pub struct Counting;

impl ReportObserver<u64> for Counting {
    ghost observes = { λ d l before seen m behind. Unit {0} };

    ghost has_room = { λ l more. Unit {0} };

    fn observe(
        &mut self,
        _line: Option<Line>,
        _seen_event: &SeenEvent,
        _octets: &[u8],
        _dictionary: &Dictionary,
        count: &mut u64,
    ) {
        *count = count.saturating_add(1);
    }

    ghost observes_none = { λ d l count. tt };

    ghost observes_more = { λ d k l m before between behind seen more told further. tt };

    ghost has_less = { λ l more less fewer room. tt };
}

//! What was seen of a run so far: how much, where it stood last, and all events where they are kept.

ghost use Rattle.std.specs.Prelude.{◌≡◌, [], ◌∷◌, ◌++◌, map, List, MatchOption, IfOk, IfSome, OnOk, ⊤};
ghost use Rattle.std.proofs.Props.{props};
ghost use Rattle.c_meaning_steps.specs.States as states;
ghost use Rattle.c_meaning_steps.specs.States.{Put};
ghost use Rattle.c_meaning_steps.specs.EventViews.{event_view, stop_view, IsNextStop};
ghost use Rattle.c_meaning_steps.specs.Tallies.{bytes_in, counted, last_stop, stops_in};

use crate::event::{Event, Standing, Stop};
use crate::log::Log;
use std::alloc::{AllocError, Global};

/// What was seen of a run so far.
#[derive(Drop)]
pub struct Seen {
    /// All events, where they are kept.
    kept: Option<Vec<Event>>,
    /// How many stops, up to the greatest number.
    pub stops: u64,
    /// How many bytes were put out, up to the greatest number.
    pub bytes: u64,
    /// Where the last stop stands, if there was one.
    pub last: Option<Standing>,
    /// The events, as proofs know them.
    pub log: Log,
    ghost stops_are: { stops ≡ counted (stops_in log.events) },
    ghost bytes_are: { bytes ≡ counted (bytes_in log.events) },
    ghost last_is: { last ≡ last_stop log.events },
    ghost kept_are: { IfSome kept (λ all. map event_view all.items ≡ log.events) } by { Prim.hlevel props },
}

/// The event of a stop, if one was made.
fn stop_event(made: Option<Stop>) -> Option<Event>
    ensures { (e : states.Event) → IfSome made (λ s. stop_view s ≡ e) → IfSome result (λ event. event_view event ≡ e) }
{
    match made {
        None => None,
        Some(stop) => Some(Event::Stop(stop)),
    }
}

/// The events that are kept, with one behind them. None are kept from where one is not there.
fn with_event(
    kept: Option<Vec<Event>>,
    event: Option<Event>,
) -> Result<Option<Vec<Event>>, AllocError>
    ensures { IfOk result (λ after.
        (before : List states.Event) (e : states.Event) → IfSome kept (λ all. map event_view all.items ≡ before)
        → IfSome event (λ made. event_view made ≡ e)
        → IfSome after (λ all. map event_view all.items ≡ before ++ e ∷ [])) }
{
    match (kept, event) {
        (Some(mut events), Some(event)) => {
            events.push(event)?;
            Ok(Some(events))
        }
        _ => Ok(None),
    }
}

impl Seen {
    /// Nothing so far. From now on all events are kept.
    pub fn all(alloc: Global) -> Seen
        ensures { result.log.events ≡ [] }
    {
        Seen {
            kept: Some(Vec::new(alloc)),
            stops: 0,
            bytes: 0,
            last: None,
            log: Log::new(),
        }
    }

    /// Nothing so far. No event is kept.
    pub fn in_short() -> Seen
        ensures { result.log.events ≡ [] }
    {
        Seen {
            kept: None,
            stops: 0,
            bytes: 0,
            last: None,
            log: Log::new(),
        }
    }

    /// Whether all events are kept.
    pub fn keeps_all(&self) -> bool {
        self.kept.is_some()
    }

    /// All events, if they were kept.
    pub fn into_events(self) -> Option<Vec<Event>>
        ensures { MatchOption result ⊤ (λ all. map event_view all.items ≡ self.log.events) }
    {
        self.kept
    }

    /// A byte is put out. The only error is want of memory where all events are kept.
    #[tactic(auto, using(crate::proofs::Tallies::same_stops, crate::proofs::Tallies::byte_counted, crate::proofs::Tallies::same_last))]
    pub fn put(&mut self, byte: u8) -> Result<(), AllocError>
        ensures { OnOk result (self.new.log.events ≡ self.old.log.events ++ Put byte ∷ []) }
    {
        let kept = with_event(self.kept.take(), Some(Event::Put(byte)))?;
        *self = Seen {
            kept,
            stops: self.stops,
            bytes: self.bytes.saturating_add(1),
            last: self.last,
            log: self.log.and_byte(&byte),
        };
        Ok(())
    }

    /// A stop. Where none was made with its memory, no event is kept from now on. The only error is want of memory
    /// where all events are kept.
    #[tactic(auto, using(crate::proofs::Tallies::stop_counted, crate::proofs::Tallies::same_bytes, crate::proofs::Tallies::stands_last))]
    pub fn stop(&mut self, at: Standing, made: Option<Stop>, log: Log) -> Result<(), AllocError>
        requires { IsNextStop self.old.log.events log.events at made }
        ensures { OnOk result (self.new.log.events ≡ log.events) }
    {
        let kept = with_event(self.kept.take(), stop_event(made))?;
        *self = Seen {
            kept,
            stops: self.stops.saturating_add(1),
            bytes: self.bytes,
            last: Some(at),
            log,
        };
        Ok(())
    }
}

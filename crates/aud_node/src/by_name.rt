//! The places of taps and records, by what they name.
ghost use Rattle.std.specs.Prelude.{◌≡◌, [], IfOk, OnOk, Some, flat_map, option_to_list, slice_get};
ghost use Rattle.std.specs.List.{filter_map, list_any};
ghost use Rattle.std.specs.Option.{option_copied};
ghost use Rattle.std.specs.Str.{bytes_eq};
ghost use Rattle.aud_base.specs.FirstTexts.{with_texts};
ghost use Rattle.aud_base.specs.Places.{noted, places_of, texts_of};
ghost use Rattle.aud_node.specs.Stream.{Text};
ghost use Rattle.aud_node.specs.OwnRecords.{record_names, own_numbers};
ghost use Rattle.aud_node.specs.TurnRecords.{pid_of};
ghost use Rattle.aud_node.specs.Names.{place_of};
ghost use Rattle.aud_node.specs.Private.NodePids.{log_names, log_pids, places_naming};

use crate::node_log::NodeLog;
use aud_base::Places;
use aud_tap::{NodeRec, NodeRecs, Tap};
use std::alloc::{AllocError, Global};
use std::hash::RandomState;

/// Of each name, the places of the taps that have it; in a bundle it is one.
pub fn taps_by_name(alloc: Global, keys: RandomState, taps: &[Tap]) -> Result<Places, AllocError>
    ensures { IfOk result (λ places. (name : Text)
        → slice_get (places_of places name) 0 ≡ place_of taps.now name) }
{
    let mut places = Places::new(alloc, keys);
    for (place, tap) in taps.iter().enumerate() {
        places.note(place, tap.name.as_str())?;
    }
    Ok(places)
}

/// Of each pid, the numbers of the records that name it; the pids in the order in which they are first named.
pub fn records_by_pid(
    alloc: Global,
    keys: RandomState,
    recs: &NodeRecs,
) -> Result<Places, AllocError>
    ensures numbers { IfOk result (λ numbers. (pid : Text)
        → places_of numbers pid ≡ own_numbers recs.now pid) }
    ensures pids { IfOk result (λ numbers. texts_of numbers
        ≡ with_texts [] (filter_map pid_of recs.now)) }
{
    let mut numbers = Places::new(alloc, keys);
    for number in 0..recs.len() {
        note_record(&mut numbers, number, &recs[number])?;
    }
    Ok(numbers)
}

fn note_record(places: &mut Places, place: usize, rec: &NodeRec) -> Result<(), AllocError>
    ensures places { OnOk result ((q : Text)
        → places_of places.new q
        ≡ noted place (record_names (Some rec.now) q) (places_of places.old q)) }
    ensures pids { OnOk result (texts_of places.new
        ≡ with_texts (texts_of places.old) (option_to_list (pid_of rec.now))) }
{
    match rec.pid() {
        Some(pid) => places.note(place, pid.as_str()),
        None => Ok(()),
    }
}

/// Of each pid, the places of the nodes whose records name it, by the logs of all taps; the pids in the order in which
/// they are first named. No record is looked at again.
pub fn nodes_by_pid(
    alloc: Global,
    keys: RandomState,
    logs: &[Option<NodeLog<'_>>],
) -> Result<Places, AllocError>
    ensures places { IfOk result (λ places. (pid : Text)
        → places_of places pid ≡ places_naming logs.now pid) }
    ensures pids { IfOk result (λ places. texts_of places
        ≡ with_texts [] (flat_map log_pids logs.now)) }
{
    let mut places = Places::new(alloc, keys);
    for (place, log) in logs.iter().enumerate() {
        note_node(&mut places, place, log.as_ref())?;
    }
    Ok(places)
}

/// Notes at the place the pids that the node's records name.
fn note_node(places: &mut Places, place: usize, log: Option<&NodeLog<'_>>) -> Result<(), AllocError>
    ensures places { OnOk result ((q : Text)
        → places_of places.new q
        ≡ noted place (log_names q (option_copied log.entry)) (places_of places.old q)) }
    ensures pids { OnOk result (texts_of places.new
        ≡ with_texts (texts_of places.old) (log_pids (option_copied log.entry))) }
{
    match log {
        Some(log) => {
            note_pids(places, place, log.pids())?;
            Ok(())
        }
        None => Ok(()),
    }
}

/// Notes at the place the texts of another index.
fn note_pids(places: &mut Places, place: usize, pids: &Places) -> Result<(), AllocError>
    ensures places { OnOk result ((q : Text)
        → places_of places.new q
        ≡ noted place (list_any (λ pid. bytes_eq pid q) (texts_of pids.now))
        (places_of places.old q)) }
    ensures pids { OnOk result (texts_of places.new
        ≡ with_texts (texts_of places.old) (texts_of pids.now)) }
{
    for number in 0..pids.len() {
        places.note(place, pids.text(number))?;
    }
    Ok(())
}

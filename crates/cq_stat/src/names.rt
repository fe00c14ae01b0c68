//! What is left in a queue: for each name, and for all that read it.

ghost use Rattle.std.specs.Prelude.{◌≡◌, ◌-◌, ◌≤◌, All, IfOk, length, map, option_map, string_bytes, sum_by};
ghost use Rattle.cq_cycle.specs.Index.{index_of};
ghost use Rattle.cq_model.specs.Finds.{first_in};
ghost use Rattle.cq_model.specs.Settings.{texts};
ghost use Rattle.cq_stat.specs.Facts.{first_index, left_from, left_in, with_floor};

use crate::NameStat;
use cq_cycle::Index;
use cq_layout::MAX_MESSAGES;
use cq_model::{Contents, CycleList, MAX_CYCLES};
use std::alloc::{AllocError, Global};

/// Returns what is said of the names, in order.
pub(crate) fn name_stats(
    alloc: Global,
    names: &[String],
    contents: &Contents,
) -> Result<Vec<NameStat>, AllocError>
    requires paired { length contents.now.positions ≡ length names.now }
    requires places { length contents.now.lists ≤ MAX_CYCLES }
    requires few { All (λ list. length list.messages ≤ MAX_MESSAGES) contents.now.lists }
    ensures names { IfOk result (λ stats. map (λ stat. string_bytes stat.name) stats.items ≡ texts names.now) }
    ensures positions { IfOk result (λ stats. map (λ stat. stat.position) stats.items ≡ contents.now.positions) }
    ensures messages { IfOk result (λ stats.
        All (λ stat. stat.messages_left ≡ left_from contents.now stat.position) stats.items) }
{
    let positions = contents.positions.as_slice();
    let mut stats = Vec::new(alloc);
    for i in 0..names.len() {
        stats.push(NameStat {
            name: String::from_str(alloc, names[i].as_str())?,
            position: Index::of_value(positions[i]),
            messages_left: messages_left(contents, contents.floor, positions[i]),
        })?;
    }
    Ok(stats)
}

/// Returns how many messages are left for a name at a position if this is the floor of the queue: those that have an index
/// not below the position, and a cycle not below the floor.
pub fn messages_left(contents: &Contents, floor: u32, position: u64) -> u64
    requires places { length contents.now.lists ≤ MAX_CYCLES }
    requires few { All (λ list. length list.messages ≤ MAX_MESSAGES) contents.now.lists }
    ensures { result ≡ left_from (with_floor contents.now floor) position }
{
    let floor = Index::new(floor, 0).value();
    messages_from(contents.lists.as_slice(), position.max(floor))
}

/// Returns the index of the first message whose cycle is not below the floor.
pub(crate) fn first_index(contents: &Contents) -> Option<Index>
    ensures { result ≡ first_index contents.now }
{
    let floor = Index::new(contents.floor, 0).value();
    first_from(contents.lists.as_slice(), floor)
}

/// Returns the index of the first message that is not below a place.
fn first_from(lists: &[CycleList], place: u64) -> Option<Index>
    ensures { result ≡ option_map (λ found. found.0) (first_in lists.now place) }
{
    for list in lists {
        if left_in(list, place) > 0 {
            return Some(Index::of_value(place.max(Index::new(list.cycle, 0).value())));
        }
    }
    None
}

/// Returns how many messages are not below a place.
fn messages_from(lists: &[CycleList], place: u64) -> u64
    requires places { length lists.now ≤ MAX_CYCLES }
    requires few { All (λ list. length list.messages ≤ MAX_MESSAGES) lists.now }
    ensures { result ≡ sum_by (left_in place) lists.now }
{
    let mut total: u64 = 0;
    for list in lists {
        total += left_in(list, place);
    }
    total
}

/// Returns how many messages of a cycle are not below a place.
fn left_in(list: &CycleList, place: u64) -> u64
    ensures { result ≡ left_in place list.now }
{
    let first = Index::new(list.cycle, 0).value();
    let count = list.messages.as_slice().len() as u64;
    count.saturating_sub(place.saturating_sub(first))
}

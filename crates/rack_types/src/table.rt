// Pairs of a name and a value in a map, and behind them the room of former pairs.
ghost use Rattle.std.specs.Prelude.{◌≤◌};
ghost use Rattle.indexmap.specs.IndexMap.{index_map_len};

mod pairs;
mod place;

use super::Bytes;
use crate::name::Name;
use indexmap::IndexMap;

/// Pairs with distinct names, in an order, and behind them the room of former ones.
///
/// A pair that is set takes the place of the former one there, if that has its name. So pairs that come
/// again in their order are written over in place, and nothing is looked up.
#[derive(Drop)]
pub(crate) struct Table {
    map: IndexMap<Name, Bytes>,
    // How many entries stand.
    count: usize,
    ghost within: { count ≤ index_map_len map },
}

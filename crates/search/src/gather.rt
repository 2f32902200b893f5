ghost use Rattle.std.specs.Prelude.{◌≡◌, map, take};
ghost use Rattle.search.specs.Search.{labels_in};

use super::entry::Entry;
use labels::ShortList;

/// The labels that entries tell, in their order; of more than twenty the first twenty.
#[tactic(auto, using(std::proofs::lemmas::List::take_all))]
pub fn labels_in<E: Entry>(entries: &[E]) -> ShortList
    ensures { result ≡ take 20 (labels_in (map E.labelled entries.now)) }
{
    let mut found = ShortList::new();
    // By `for`: a loop over `filter_map` was tried, and is refused where the entry is a type parameter.
    for entry in entries {
        if let Some(label) = entry.label() {
            found.push(label);
        }
    }
    found
}

//! Tests of the libraries from parameters and terms up to a netting set, over calls that no
//! command reaches: what a netting set answers and keeps of its buckets at random, each of its
//! sides as a set of its own, room that is put by for entries, what-ifs of a live margin.
#![tactic(auto)]

#[cfg(test)]
mod events_at_random;
#[cfg(test)]
mod expected_book;
#[cfg(test)]
mod makers;
#[cfg(test)]
mod random;
#[cfg(test)]
mod random_places;
#[cfg(test)]
mod random_requests;
#[cfg(test)]
mod reserved_entries;
#[cfg(test)]
mod set_core_calls;
#[cfg(test)]
mod sides_at_random;
#[cfg(test)]
mod what_ifs_at_random;
#[cfg(test)]
mod what_ifs_in_little_room;
#[cfg(test)]
mod whatif_makers;

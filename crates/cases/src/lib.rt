#![tactic(auto)]

// What sets, catalogues, records, joined shelves and the writer answer on examples.
#[cfg(test)]
mod bodies;
#[cfg(test)]
mod catalogues;
#[cfg(test)]
mod checking;
#[cfg(test)]
mod edges;
#[cfg(test)]
mod faults;
#[cfg(test)]
mod joined;
#[cfg(test)]
mod lines;
#[cfg(test)]
mod making;
#[cfg(test)]
mod records;
#[cfg(test)]
mod role_sets;
#[cfg(test)]
mod term_sets;
#[cfg(test)]
mod writing;

// Tables of cases, walked by tests: what a host and a user of the console see, row by row.
#![tactic(auto)]

#[cfg(test)]
mod calls;
#[cfg(test)]
mod commands;
#[cfg(test)]
mod host_cubes;
#[cfg(test)]
mod notations;
#[cfg(test)]
mod numbers;
#[cfg(test)]
mod round_trips;
#[cfg(test)]
mod sheets;

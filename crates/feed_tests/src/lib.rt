// Edge tests of the feed: faults, refusals and growth, as tables; and of bytes in hex.
#![tactic(auto)]

#[cfg(test)]
mod hex;
#[cfg(test)]
mod reading;
#[cfg(test)]
mod sample;
#[cfg(test)]
mod writing;

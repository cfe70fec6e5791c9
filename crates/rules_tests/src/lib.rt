// Edge tests of ranked lists and of the rules that an opening asks, as tables.
#![tactic(auto)]

#[cfg(test)]
mod lists;
#[cfg(test)]
mod markets;
#[cfg(test)]
mod sharing_rules;
#[cfg(test)]
mod widths;

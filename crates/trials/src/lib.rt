// Lists against brute force over all messages, a published word, and a fitting used alone, through the public calls. Tests only.

#![tactic(auto)]

#[cfg(test)]
mod brute_force;
#[cfg(test)]
mod concatenations;
#[cfg(test)]
mod fitting_alone;
#[cfg(test)]
mod messages;
#[cfg(test)]
mod published;
#[cfg(test)]
mod sheets;

//! What a connection does at each moment of its life, as tables over links in memory: what it answers, when each limit
//! of time passes, and what draining, halting and placing leave of it. It has tests alone.
#![tactic(auto)]

#[cfg(test)]
mod apps;
#[cfg(test)]
mod counts;
#[cfg(test)]
mod drains;
#[cfg(test)]
mod drains_answered;
#[cfg(test)]
mod drains_hijacked;
#[cfg(test)]
mod fails;
#[cfg(test)]
mod generations;
#[cfg(test)]
mod halts;
#[cfg(test)]
mod idle;
#[cfg(test)]
mod keys;
#[cfg(test)]
mod late;
#[cfg(test)]
mod leaves;
#[cfg(test)]
mod moments;
#[cfg(test)]
mod notes;
#[cfg(test)]
mod peers;
#[cfg(test)]
mod places;
#[cfg(test)]
mod rows;
#[cfg(test)]
mod served;
#[cfg(test)]
mod stalled;
#[cfg(test)]
mod steps;
#[cfg(test)]
mod tells;
#[cfg(test)]
mod texts;
#[cfg(test)]
mod watches;

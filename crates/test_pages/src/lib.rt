//! Tests of a page and of a chain of pages: rows of commands by one thread, games of random
//! commands beside a plain model, threads, and callers.
#![tactic(auto)]

#[cfg(test)]
mod assert_equal;
#[cfg(test)]
mod cases;
#[cfg(test)]
mod games;
#[cfg(test)]
mod linear_page;
#[cfg(test)]
mod model;
#[cfg(test)]
mod page;
#[cfg(test)]
mod player;
#[cfg(test)]
mod zero;

//! Callers that need a chain and its pages to be sent and shared, each where the items may be sent.
use super::*;
use crate::page::sharing::{sent, shared};

fn chain_and_page<T: Send, K: Clean<T>>(chain: &Chain<T, K>, page: &LinearPage<'_, T, K>) {
    sent(chain);
    sent(page);
    shared(chain);
    shared(page);
}

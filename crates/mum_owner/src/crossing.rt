//! What goes to another thread. The calls here do nothing: each is proved only where values of its type may
//! cross.

use crate::owner::Owner;
use crate::serving::Serving;
use mum_io::{Clock, Door};
use std::sync::Wait;

fn crosses<T: Send>(value: T) -> T {
    value
}

pub fn owner_crosses<'a, D: Door + Send, K: Clock + Send, N: Serving + Send, R: Wait + Copy + Send>(
    owner: Owner<'a, D, K, N, R>,
) -> Owner<'a, D, K, N, R> {
    crosses(owner)
}

//! Of which opening an owner is.

use mum_doorway::Doorside;
use mum_published::Naming;
use std::marker::Brand;

/// Names the `open` whose values an owner keeps, and what its door had counted when the owner was opened. The
/// caller of `Owner::open` picks both at `Brand`, when it calls what is generic in this.
pub trait Serving: Naming + Doorside {}

impl Serving for Brand {}

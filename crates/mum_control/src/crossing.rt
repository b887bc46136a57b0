//! What goes to another thread. The calls here do nothing: each is proved only where values of its type may
//! cross.

use crate::control::Control;
use mum_published::Naming;

fn crosses<T: Send>(value: T) -> T {
    value
}

pub fn control_crosses<'a, N: Naming + Send>(control: Control<'a, N>) -> Control<'a, N> {
    crosses(control)
}

//! What goes to another thread. The call does nothing: it is proved only where its value may cross.

ghost use Rattle.std.specs.Prelude.{◌≡◌};

use crate::router::Router;
use mum_published::Naming;

fn crosses<T: Send>(value: T) -> T
    ensures { result ≡ value }
{
    value
}

pub fn router_crosses<N: Naming + Send>(router: Router<N>) -> Router<N>
    ensures { result ≡ router }
{
    crosses(router)
}

//! What goes to another thread. The calls here do nothing: each is proved only where its value may cross.

ghost use Rattle.std.specs.Prelude.{◌≡◌};

use crate::post::PostParcel;
use crate::voice::VoiceParcel;
use mum_published::Naming;

fn crosses<T: Send>(value: T) -> T
    ensures { result ≡ value }
{
    value
}

pub fn voice_parcel_crosses<N: Naming + Send>(parcel: VoiceParcel<N>) -> VoiceParcel<N>
    ensures { result ≡ parcel }
{
    crosses(parcel)
}

pub fn post_parcel_crosses<N: Naming + Send>(parcel: PostParcel<N>) -> PostParcel<N>
    ensures { result ≡ parcel }
{
    crosses(parcel)
}

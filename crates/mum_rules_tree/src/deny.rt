//! For what a command is denied that the tree of channels would refuse.

ghost use Rattle.std.specs.Prelude.{◌≡◌};
ghost use Rattle.mum_rules_tree.specs.Codes.{deny_type_of};

use mum_base::DenyType;
use mum_tree::TreeFault;

// For what a command is denied that the tree would refuse.
pub(crate) fn deny_type_of(fault: TreeFault) -> DenyType
    ensures { result ≡ deny_type_of fault }
{
    match fault {
        TreeFault::NoChannel => DenyType::Text,
        TreeFault::SameName => DenyType::ChannelName,
        TreeFault::UnderItself => DenyType::Text,
        TreeFault::Nesting => DenyType::NestingLimit,
        TreeFault::Count => DenyType::ChannelCountLimit,
        TreeFault::RootFixed => DenyType::Text,
        TreeFault::TemporaryParent => DenyType::TemporaryChannel,
        TreeFault::LinkCount => DenyType::Text,
        TreeFault::OutOfMemory => DenyType::Text,
    }
}

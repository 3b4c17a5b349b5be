//! Laws: threads may share the parts of a stack. These functions do nothing at run time: their clauses state what the bounds require.

ghost use denote.Param.Send.{IsSend, IsSync};
ghost use Rattle.flt_stack.specs.contracts.loaded.Loaded as loaded;

use flt_stack::Loaded;
use flt_tree::Tree;
use sqlite_items::Items;

/// Threads may share values of the type.
pub fn shared<T: Sync>()
    ensures { IsSync T.row }
{}

/// A value of the type may go to another thread.
pub fn sent<T: Send>()
    ensures { IsSend T.row }
{}

/// Threads may share the loaded filters.
pub fn loaded_is_shared()
    ensures { IsSync loaded.the_row }
{
    shared::<Items<Tree>>();
    shared::<flt_machine::Loaded>();
    shared::<Loaded>();
}

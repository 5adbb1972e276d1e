// Theorems over the definitions. Each is the clause of a function that does nothing.
ghost use Rattle.olap_needs.specs.Laws.{EachNeedIsQuestion, EmptiedAreOne, NeedsAreRead, NeedsAreAdded, NeedsAreExact, NeedsAreOne, NeedsAreWeakest, NeedsLeaveMembers, NeedsStayReadable, NeedsSuffice, NoneNeeded};

use olap_ast::above_is_legal;
use olap_base::above_is_lawful;
use olap_schema_text::printed_schemas_are_read;

/// With the constraints that are needed, the target is summarizable.
pub fn needs_suffice()
    ensures { NeedsSuffice }
{}

/// A legal instance meets them exactly if on it the view from the sources' views is the direct view, for every fact
/// table.
pub fn needs_are_exact()
    ensures { NeedsAreExact }
{}

/// An instance is legal with them exactly if it is legal and meets them.
pub fn needs_are_added()
    ensures { NeedsAreAdded }
{}

/// Whatever constraints make the target summarizable, an instance that is legal with those is legal with these.
pub fn needs_are_weakest()
    ensures { NeedsAreWeakest }
{}

/// None are needed exactly if the target is summarizable.
pub fn none_needed()
    ensures { NoneNeeded }
{}

/// There is at most one such list.
pub fn needs_are_one()
    ensures { NeedsAreOne }
{}

/// There is at most one list of those that they leave without members.
pub fn emptied_are_one()
    ensures { EmptiedAreOne }
{}

/// If there is room for them, a readable schema stays readable with them.
pub fn needs_stay_readable()
    ensures { NeedsStayReadable }
{}

/// Each of them by itself is a question within the limits, if there are at most `most_words` sources.
pub fn each_need_is_question()
    ensures { EachNeedIsQuestion }
{}

/// With them a bottom category can't have a member exactly if none could meet its constraint in the first place.
pub fn needs_leave_members()
    ensures { NeedsLeaveMembers }
{
    above_is_lawful();
    above_is_legal();
}

/// The lines after the schema's canonical text are the canonical text of the schema with the constraints, and within
/// the limits it reads back as that schema.
pub fn needs_are_read()
    ensures { NeedsAreRead }
{
    printed_schemas_are_read();
}

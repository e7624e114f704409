//! What is proved of counts. Each function does nothing; its contract is the law.
ghost use Rattle.change_order.specs.Calls.{CallsGiveOneOrder};
ghost use Rattle.change_order.specs.Orders.{CountsGiveOneOrder};
ghost use Rattle.change_order.specs.Growing.{JournalsGrowLineByLine};

/// Where the ticks and the looks' values are as a counter keeps them, journals that have these changes and looks fit one order of
/// all changes, in which each line that looked has its place.
pub fn counts_give_one_order()
    ensures { CountsGiveOneOrder }
{}

/// A journal has the changes and looks of its bucket line by line: a changing line comes with its change, and a line that looked
/// comes behind its look and behind the changes of the entries collected for it. A refused call may leave a look without a line.
pub fn journals_grow_line_by_line()
    ensures { JournalsGrowLineByLine }
{}

/// Where one bucket is called at a time and each look is told exactly, the changing lines in the order of the calls are one order of
/// all changes, and a line's place in it is the number of changing lines before it and its collected entries.
pub fn calls_give_one_order()
    ensures { CallsGiveOneOrder }
{}

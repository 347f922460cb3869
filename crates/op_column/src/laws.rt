//! Laws of single operators. The functions do nothing: their contracts are the laws.
ghost use Rattle.op_column.specs.ColumnKept.{AddedColumnFilled, AddedColumnKept, DroppedColumnFilled, DroppedColumnKept, DroppedColumnLeftOut};
ghost use Rattle.op_column.specs.TrackedFollows.{DeviatingValueKept, DeviatingValuesBeside, EqualValueNotKept, OtherValueFollows};

/// What becomes of the values of an added or a dropped column while other columns are written.
pub fn columns_are_kept()
    ensures added { AddedColumnKept }
    ensures filled { AddedColumnFilled }
    ensures dropped { DroppedColumnKept }
    ensures dropped_filled { DroppedColumnFilled }
    ensures dropped_left_out { DroppedColumnLeftOut }
{}

/// What becomes of the values of a tracked column while other columns are written.
pub fn tracked_columns_follow()
    ensures kept { DeviatingValueKept }
    ensures follows { OtherValueFollows }
    ensures equal { EqualValueNotKept }
    ensures beside { DeviatingValuesBeside }
{}

//! Laws over every text of a layout whose keys and values are read.

ghost use Rattle.std.specs.Prelude.{◌≡◌, Ok, Err};
ghost use Rattle.layout_text.specs.declared.fault.LayoutFault.{LayoutFault};
ghost use Rattle.layout_text.specs.declared.fault.LayoutFault.TheVariants.{UnknownName};
ghost use Rattle.layout_text.specs.declared.fault.Place.{Place};
ghost use Rattle.layout.specs.Entries.{Site};
ghost use Rattle.layout_text.specs.Limits.{limits_of};
ghost use Rattle.layout.specs.NamesResolved.{entries_of};
ghost use Rattle.layout_text.specs.Written.{LayoutText};
ghost use Rattle.layout.specs.TooMany.{IsFirstTooMany, KeepsLimits};
ghost use Rattle.layout.specs.Unknown.{IsFirstUnknown, NamesWhatIsThere};

/// A fault of the limits is at the first entry too many: table after table, the first entry past what the table may hold, or
/// the first detection controller or route that is itself too large or past the limit. Where there is no such fault, every
/// limit is kept.
pub fn limit_is_the_first_entry_too_many()
    ensures fault { (text : LayoutText) (f : LayoutFault) → limits_of text ≡ Err f → IsFirstTooMany text f }
    ensures kept { (text : LayoutText) → limits_of text ≡ Ok tt → KeepsLimits text }
{}

/// An unknown name is at the first name, in reading order, that no entry has of a table of which it may name one. Where each
/// name has its entry, it is at the first section that no detection controller reports. Where the text has its entries, each
/// name that is used is that of an entry, and each section is reported.
pub fn unknown_name_is_the_first_that_no_entry_has()
    ensures fault { (text : LayoutText) (place : Place) → entries_of text ≡ Err (UnknownName place) → IsFirstUnknown text place }
    ensures kept { (text : LayoutText) (l : Site) → entries_of text ≡ Ok l → NamesWhatIsThere text }
{}

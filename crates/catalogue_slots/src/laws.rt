//! Laws of slots, each as the contract of a function that does nothing.
ghost use Rattle.std.specs.Prelude.{◌≡◌, length};
ghost use Rattle.std.specs.List.{AllByRecursion};
ghost use Rattle.catalogue_slots.specs.Records.{Object, Record, IsObject, IsRecord, slots_for, records_of};
ghost use Rattle.catalogue_slots.specs.Layout.{spelling};

/// No two records have the same bytes, and each fills a slot.
pub fn one_record()
    ensures once { (a b : Record) → IsRecord a → IsRecord b → spelling a ≡ spelling b → a ≡ b }
    ensures fills { (entry : Record) → IsRecord entry → length (spelling entry) ≡ 4096 }
{}

/// An object that may be added is spelled by as many records as the slots that it takes.
pub fn an_object_has_its_records()
    ensures records { (object : Object) → IsObject object → AllByRecursion IsRecord (records_of object) }
    ensures count { (object : Object) → length (records_of object) ≡ slots_for (length object.runs) }
{}

//! Laws of what Unicode's files mean. Each function does nothing: its contract is the law.
ghost use Rattle.std.specs.Prelude.{◌≡◌, ◌↔◌, ℕ, List, [], Err, Ok, Some};
ghost use Rattle.normalizer_records.specs.Faults.{AreMapperRising, AreRising};
ghost use Rattle.normalizer_records.specs.RecordValue.{RecordValue, Uts46RecordValue};
ghost use Rattle.normalizer_ucd.specs.Fields.{lines};
ghost use Rattle.normalizer_ucd.specs.FileLines.{AreStated, AreStatuses};
ghost use Rattle.normalizer_ucd.specs.FileFaults.{fault_of_files, fault_of_table};
ghost use Rattle.normalizer_ucd.specs.UnicodeData.{records_of};
ghost use Rattle.normalizer_ucd.specs.IdnaTable.{uts46_records_beside, uts46_records_of};
ghost use Rattle.normalizer_ucd.specs.Layouts.{MeanTheSame};
ghost use Rattle.normalizer_ucd.specs.declared.error.LineFault.{LineFault};
ghost use Rattle.normalizer_ucd.specs.declared.idna_table.Disallowed.{Disallowed};

/// The records that the two files yield are sorted by character, without duplicates, as `Records::build` requires.
pub fn records_of_files_are_sorted()
    ensures { (unicode_data exclusions : List ℕ) (records : List RecordValue) →
        records_of unicode_data exclusions ≡ Ok records → AreRising records }
{}

/// So are the mapper's records that the table yields, by itself or beside the exclusions.
pub fn mapper_records_of_files_are_sorted()
    ensures table { (choice : Disallowed) (table : List ℕ) (records : List Uts46RecordValue) →
        uts46_records_of choice table ≡ Ok records → AreMapperRising records }
    ensures beside { (exclusions table : List ℕ) (choice : Disallowed) (records : List Uts46RecordValue) →
        uts46_records_beside exclusions choice table ≡ Ok records → AreMapperRising records }
{}

/// The records that the two files yield are those that their lines state, and no others.
pub fn records_of_files_are_stated()
    ensures { (unicode_data exclusions : List ℕ) (records : List RecordValue) →
        records_of unicode_data exclusions ≡ Ok records → AreStated unicode_data exclusions records }
{}

/// The mapper's records that the table yields, by itself or beside the exclusions, are those that its lines state, and
/// no others.
pub fn mapper_records_of_files_are_stated()
    ensures table { (choice : Disallowed) (table : List ℕ) (records : List Uts46RecordValue) →
        uts46_records_of choice table ≡ Ok records → AreStatuses choice table records }
    ensures beside { (choice : Disallowed) (exclusions table : List ℕ) (records : List Uts46RecordValue) →
        uts46_records_beside exclusions choice table ≡ Ok records → AreStatuses choice table records }
{}

/// The two files are refused if and only if something is wrong with them, with the first thing that is.
pub fn files_are_refused_at_the_first_fault()
    ensures { (unicode_data exclusions : List ℕ) (fault : LineFault) →
        records_of unicode_data exclusions ≡ Err fault ↔ (fault_of_files unicode_data exclusions ≡ Some fault) }
{}

/// The table is refused if and only if something is wrong with it, by itself or beside the exclusions, with the first
/// thing that is, whichever disallowed characters get a record.
pub fn tables_are_refused_at_the_first_fault()
    ensures table { (choice : Disallowed) (table : List ℕ) (fault : LineFault) →
        uts46_records_of choice table ≡ Err fault ↔ (fault_of_table [] table ≡ Some fault) }
    ensures beside { (choice : Disallowed) (exclusions table : List ℕ) (fault : LineFault) →
        uts46_records_beside exclusions choice table ≡ Err fault
        ↔ (fault_of_table exclusions table ≡ Some fault) }
{}

/// The lines of the two files, and those of the table, state at most one sorted list of records.
pub fn files_have_at_most_one_list_of_records()
    ensures files { (unicode_data exclusions : List ℕ) (records others : List RecordValue) →
        AreStated unicode_data exclusions records → AreStated unicode_data exclusions others →
        AreRising records → AreRising others → records ≡ others }
    ensures table { (choice : Disallowed) (table : List ℕ) (records others : List Uts46RecordValue) →
        AreStatuses choice table records → AreStatuses choice table others →
        AreMapperRising records → AreMapperRising others → records ≡ others }
{}

/// Files whose lines mean the same, whatever their white space and comments, yield the same records if they yield any.
pub fn layout_makes_no_difference()
    ensures files { (unicode_data exclusions other listed : List ℕ) (records found : List RecordValue) →
        MeanTheSame (lines unicode_data) (lines other) → MeanTheSame (lines exclusions) (lines listed) →
        records_of unicode_data exclusions ≡ Ok records → records_of other listed ≡ Ok found → records ≡ found }
    ensures table { (choice : Disallowed) (table other : List ℕ) (records found : List Uts46RecordValue) →
        MeanTheSame (lines table) (lines other) →
        uts46_records_of choice table ≡ Ok records → uts46_records_of choice other ≡ Ok found → records ≡ found }
{}

// Laws of tables.
ghost use Rattle.std.specs.Prelude.{◌≡◌, ◌≢◌, ◌≤◌, ℕ, List, [], All, length};
ghost use Rattle.csv.specs.Reading.{strip_bom};
ghost use Rattle.table_records.specs.Tables.{first_field, records_in, table_text};

/// The text of records, none of which is without a field, reads as those records, where the first field of all does
/// not start with a byte order mark. A law, which does nothing when it is called.
pub fn tables_read_back()
    ensures { (rows : List (List (List ℕ))) → All (λ row. row ≢ []) rows → strip_bom (first_field rows) ≡ first_field rows → records_in (table_text rows) ≡ rows }
{}

/// Bytes have at most as many records. A law, which does nothing when it is called.
pub fn records_are_few()
    ensures { (bytes : List ℕ) → length (records_in bytes) ≤ length bytes }
{}

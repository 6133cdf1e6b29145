/// What `--help` prints: one screen.
pub const HELP: &str = "\
pg_index builds a PostgreSQL 18 index file from a copied heap file.

usage: pg_index build HEAP INDEX TABLE-STATEMENT INDEX-STATEMENT [options]
       pg_index --help | --version

  HEAP              the heap file: at most 131,072 blocks of 8,192 bytes
  INDEX             the index file to write: another file than HEAP
  TABLE-STATEMENT   CREATE TABLE with columns, their types and NOT NULL, as
                    pg_dump prints it but for defaults and other constraints
  INDEX-STATEMENT   CREATE [UNIQUE] INDEX on columns of that table, also with
                    DESC, NULLS FIRST, INCLUDE, fillfactor and WHERE; text
                    columns are sorted by collation \"C\"

options, in any order, each at most once:
  --workers=N       workers beside the leader, 0 to 31, 2 by default
  --run-rows=N      rows of a sorted run: 1 to 16777216, by default 65536
  --claims          report which worker claimed which blocks

exit status, with a line on standard error where it isn't 0:
   0  the index was written, and 'built METHOD: R rows, B blocks' printed
   2  usage: the word of this number is at fault
   3  a statement is at fault: its number, place and cause are told
   4  the heap file couldn't be read
   5  the heap is at fault: its block, item and cause are told
   6  two rows have one key in a unique index: where they stand is told
   7  a range of a BRIN index is too wide for a page: it and its size are told
   8  the index file or the report couldn't be written
  10  out of memory: nothing was changed

After every status but 0 and 8 the index file is as it was.
";

/// What `--version` prints.
pub const VERSION: &str = "pg_index 0.1.0, for PostgreSQL 18 files\n";

//! The kinds of step on a scan's table, each in a file of its own.
mod claim;
mod close;
mod floor;
mod join;
mod open;
mod report;

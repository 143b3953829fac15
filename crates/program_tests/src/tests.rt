//! What each program returns and writes, including when memory, a reader or a writer fails, and
//! what callers return.

mod announcements;
mod callers;
mod draw;
mod lots;
mod programs;
mod rand_users;
mod readers;
mod records;
mod users;
mod writers;

//! What is asked of a disk, with the answer.
use crate::disk::{DiskFault, Standing, Start, Unkept};
use xw_lines::history::History;

/// A call of a disk, for its log.
#[derive(Clone, Copy)]
pub enum Asked<'a> {
    Read(&'a str, &'a [u8]),
    Unread(&'a str, DiskFault),
    Try(&'a str, Result<(), DiskFault>),
    Replace(&'a str, &'a [u8], Result<(), DiskFault>),
    Keep(&'a str, &'a [u8], u32),
    Unkept(&'a str, &'a [u8], Unkept),
    Stands(&'a str, Standing),
    Leave(&'a str, &'a [u8], &'a str),
    Unleft(&'a str, &'a [u8], DiskFault),
    Open(&'a str, &'a [u8]),
    Unopened(&'a str, DiskFault),
    Begin(&'a str, Start<'a>, bool, Result<(), DiskFault>),
    TakeLines(&'a str, &'a History),
    Find(&'a str, Result<(), DiskFault>),
    End(&'a str, &'a [u8], Result<(), DiskFault>),
}

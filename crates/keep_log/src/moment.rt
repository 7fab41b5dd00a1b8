//! The date and the time of day in UTC.

ghost use Rattle.std.specs.Prelude.{◌≡◌, ◌++◌, ◌<◌, ◌∷◌, [], OnOk, pos, unsigned_abs};
ghost use Rattle.jiff_core.specs.DateTime.{civil_nanos};
ghost use Rattle.keep_log.specs.Moment.{digit, two, three, four, date_text, time_text, millis_text, moment_text};

use jiff_core::civil::{Date, DateTime, Time};
use jiff_core::{Offset, Timestamp};
use std::alloc::AllocError;

/// What a clock in UTC shows so many nanoseconds after the beginning of 1970.
pub fn moment_of(nanos: u64) -> DateTime
    ensures { civil_nanos result ≡ pos nanos }
{
    match Timestamp::from_nanosecond(i128::from(nanos)) {
        Ok(timestamp) => Offset::UTC.to_datetime(timestamp),
        Err(_) => unreachable!(),
    }
}

// Adds the last digit of a number.
fn push_digit(out: &mut Vec<u8>, number: u32) -> Result<(), AllocError>
    ensures { OnOk result (out.new.items ≡ out.old.items ++ (digit number ∷ [])) }
{
    out.push(b'0' + (number % 10) as u8)?;
    Ok(())
}

// Adds the last two digits of a number.
fn push_two(out: &mut Vec<u8>, number: u32) -> Result<(), AllocError>
    ensures { OnOk result (out.new.items ≡ out.old.items ++ two number) }
{
    push_digit(out, number / 10)?;
    push_digit(out, number)
}

// Adds the last three digits of a number.
fn push_three(out: &mut Vec<u8>, number: u32) -> Result<(), AllocError>
    ensures { OnOk result (out.new.items ≡ out.old.items ++ three number) }
{
    push_digit(out, number / 100)?;
    push_two(out, number)
}

// Adds the last four digits of a number.
fn push_four(out: &mut Vec<u8>, number: u32) -> Result<(), AllocError>
    ensures { OnOk result (out.new.items ≡ out.old.items ++ four number) }
{
    push_digit(out, number / 1_000)?;
    push_three(out, number)
}

// Adds two digits behind a sign.
fn push_part(out: &mut Vec<u8>, sign: u8, number: u8) -> Result<(), AllocError>
    ensures { OnOk result (out.new.items ≡ out.old.items ++ sign ∷ two number) }
{
    out.push(sign)?;
    push_two(out, u32::from(number))
}

// Adds the date.
fn push_date(out: &mut Vec<u8>, date: Date) -> Result<(), AllocError>
    ensures { OnOk result (out.new.items ≡ out.old.items ++ date_text date) }
{
    push_four(out, u32::from(date.year.unsigned_abs()))?;
    push_part(out, b'-', date.month)?;
    push_part(out, b'-', date.day)
}

// Adds the time of day.
fn push_time(out: &mut Vec<u8>, time: Time) -> Result<(), AllocError>
    ensures { OnOk result (out.new.items ≡ out.old.items ++ time_text time) }
{
    push_part(out, b'T', time.hour)?;
    push_part(out, b':', time.minute)?;
    push_part(out, b':', time.second)
}

// Adds the milliseconds of a second, and the end.
fn push_millis(out: &mut Vec<u8>, nanos: u32) -> Result<(), AllocError>
    ensures { OnOk result (out.new.items ≡ out.old.items ++ millis_text nanos) }
{
    out.push(b'.')?;
    push_three(out, nanos / 1_000_000)?;
    out.push(b'Z')?;
    Ok(())
}

/// Adds a moment, as `2026-11-28T13:04:05.123Z`.
pub fn push_moment(out: &mut Vec<u8>, moment: DateTime) -> Result<(), AllocError>
    ensures { OnOk result (out.new.items ≡ out.old.items ++ moment_text moment) }
{
    push_date(out, moment.date)?;
    push_time(out, moment.time)?;
    push_millis(out, moment.time.subsec_nanosecond)
}

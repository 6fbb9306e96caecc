// The tables of the demo, record by record into a text whose room is reserved once.
ghost use Rattle.std.specs.Prelude.{◌≡◌, ◌<◌, ◌≤◌, ◌+◌, ◌*◌, ◌%◌, ◌++◌, pos, ◌-ℤ◌, IfOk, OnOk};
ghost use Rattle.smk_model.specs.Demo as definitions;
ghost use Rattle.smk_model.specs.Texts.{record_line};

use itoa::Buffer;
use smk_base::{ListOf, Text};
use std::alloc::{AllocError, Global};

// The records of the names of the columns.
const FLIGHT_HEADER: &[u8] = b"id,carrier,hour,delay,airport\n";

const AIRPORT_HEADER: &[u8] = b"code,state\n";

// The most bytes of the record of a flight, such as `199999,C6,19,143,A29`, and the bytes of each record of an airport, such as `A07,S7`.
const FLIGHT_BYTES: usize = 21;

const AIRPORT_BYTES: usize = 7;

// How many airports there are.
const AIRPORTS: u32 = 40;

// The digit of a number.
fn digit(number: u32) -> u8
    requires { number < 10 }
    ensures { result ≡ 48 + number }
{
    b'0' + number as u8
}

// The delay of flight i, from an hour too early on.
fn delay(i: u32) -> i32
    requires { i < 200000 }
    ensures { result ≡ pos (37 * i % 240) -ℤ pos 60 }
{
    (37 * i % 240) as i32 - 60
}

#[tactic(auto, using(crate::proofs::Records::flight_parts))]
// Writes the record of flight i at the end of a text. After an error the text is of no use.
fn add_flight(text: &mut Vec<u8>, i: u32) -> Result<(), AllocError>
    requires { i < 200000 }
    ensures { OnOk result (text.new.items ≡ text.old.items ++ record_line (definitions.flight i)) }
{
    let mut digits = Buffer::new();
    text.extend_from_slice(digits.format(i).as_bytes())?;
    text.extend_from_slice(&[b',', b'C', digit(i / 3 % 10), b','])?;
    text.extend_from_slice(digits.format(5 * i % 24).as_bytes())?;
    text.push(b',')?;
    text.extend_from_slice(digits.format(delay(i)).as_bytes())?;
    let airport = 11 * i % AIRPORTS;
    text.extend_from_slice(&[b',', b'A', digit(airport / 10), digit(airport % 10), b'\n'])?;
    Ok(())
}

/// The table of n flights.
pub fn flights(alloc: Global, n: u32) -> Result<Text, AllocError>
    requires { n ≤ 200000 }
    ensures { IfOk result (λ text. text ≡ definitions.flights n) }
{
    let room = FLIGHT_HEADER.len() + n as usize * FLIGHT_BYTES;
    let mut text = Vec::with_capacity(alloc, room)?;
    text.extend_from_slice(FLIGHT_HEADER)?;
    for i in 0..n {
        add_flight(&mut text, i)?;
    }
    Ok(ListOf::from_vec(text))
}

#[tactic(auto, using(crate::proofs::Records::airport_parts))]
// Writes the record of airport i at the end of a text. After an error the text is of no use.
fn add_airport(text: &mut Vec<u8>, i: u32) -> Result<(), AllocError>
    requires { i < 40 }
    ensures { OnOk result (text.new.items ≡ text.old.items ++ record_line (definitions.airport i)) }
{
    text.extend_from_slice(&[
        b'A',
        digit(i / 10),
        digit(i % 10),
        b',',
        b'S',
        digit(i % 8),
        b'\n',
    ])?;
    Ok(())
}

/// The table of the forty airports.
pub fn airports(alloc: Global) -> Result<Text, AllocError>
    ensures { IfOk result (λ text. text ≡ definitions.airports) }
{
    let room = AIRPORT_HEADER.len() + AIRPORTS as usize * AIRPORT_BYTES;
    let mut text = Vec::with_capacity(alloc, room)?;
    text.extend_from_slice(AIRPORT_HEADER)?;
    for i in 0..AIRPORTS {
        add_airport(&mut text, i)?;
    }
    Ok(ListOf::from_vec(text))
}

//! An input whose members are numbers and flags, read from its tokens without a tree.

ghost use Rattle.std.specs.Prelude.{◌≡◌, ◌≤◌, ◌<◌, length, Some, IfSome, ℕ};
ghost use Rattle.json.specs.Json.{value, members};
ghost use Rattle.serde_json.specs.Data.{Data, boolean, number, object, unsigned, no_members, put};
ghost use Rattle.serde_json.specs.Read.{of_json, of_members, converted};
ghost use Rattle.scenario_file.specs.Plain.{number_name, plain_members, input_members, FieldStands, FieldFits, InputFits};

use crate::trees::whole_of;
use json::{Reader, Token};
use scenario_data::Input;
use sig_types::Field;

/// The names of an input at which a number is.
#[derive(Clone, Copy)]
pub(crate) enum NumberName {
    Cabinet,
    Ped,
    Preempt,
    Round,
    Veh,
}

/// What is at the names of an input, of equal names the last.
#[derive(Clone, Copy)]
pub(crate) struct Plain {
    cabinet: Option<u64>,
    on: Option<bool>,
    ped: Option<u64>,
    preempt: Option<u64>,
    round: Option<u64>,
    veh: Option<u64>,
}

/// The name of a number, where this is one.
fn number_named(name: &str) -> Option<NumberName>
    ensures { IfSome result (λ found. name.now ≡ number_name found) }
{
    match name {
        "round" => Some(NumberName::Round),
        "cabinet" => Some(NumberName::Cabinet),
        "veh" => Some(NumberName::Veh),
        "ped" => Some(NumberName::Ped),
        "preempt" => Some(NumberName::Preempt),
        _ => None,
    }
}

/// The number that is at a name, where it is of 1 to the most.
fn held(number: Option<u64>, most: u32) -> Option<u32>
    ensures { IfSome result (λ n. (number ≡ Some n) × (1 ≤ n) × (n ≤ most)) }
{
    match number {
        Some(number) => {
            if number < 1 || number > u64::from(most) {
                return None;
            }
            Some(number as u32)
        }
        None => None,
    }
}

impl Plain {
    /// No members.
    fn nothing() -> Plain
        ensures { plain_members result ≡ no_members }
    {
        Plain {
            cabinet: None,
            on: None,
            ped: None,
            preempt: None,
            round: None,
            veh: None,
        }
    }

    /// Puts a number at a name.
    fn put_number(&mut self, name: NumberName, whole: u64)
        ensures { plain_members self.new ≡ put (number_name name) (number (unsigned whole)) (plain_members self.old) }
    {
        match name {
            NumberName::Cabinet => self.cabinet = Some(whole),
            NumberName::Ped => self.ped = Some(whole),
            NumberName::Preempt => self.preempt = Some(whole),
            NumberName::Round => self.round = Some(whole),
            NumberName::Veh => self.veh = Some(whole),
        }
    }

    /// Puts a flag at its name.
    fn put_flag(&mut self, name: &str, flag: bool) -> Option<()>
        ensures { IfSome result (λ _. plain_members self.new ≡ put name.now (boolean flag) (plain_members self.old)) }
    {
        if name != "on" {
            return None;
        }
        self.on = Some(flag);
        Some(())
    }

    /// The detector, the push button or the preempt input, if there is only one.
    fn field(&self) -> Option<Field>
        ensures { IfSome result (λ field. FieldStands field self.now × FieldFits field) }
    {
        match (self.veh, self.ped, self.preempt, self.on) {
            (Some(_), None, None, Some(on)) => Some(Field::Veh {
                phase: held(self.veh, 16)? as u8,
                on,
            }),
            (None, Some(_), None, None) => Some(Field::Ped {
                phase: held(self.ped, 16)? as u8,
            }),
            (None, None, Some(_), Some(on)) => Some(Field::Preempt {
                number: held(self.preempt, 8)? as u8,
                on,
            }),
            _ => None,
        }
    }

    /// The input, where it is without fault in a scenario of the most rounds and cabinets.
    fn input(&self) -> Option<Input>
        ensures { IfSome result (λ input. (plain_members self.now ≡ input_members input) × InputFits input) }
    {
        let field = self.field()?;
        let round = held(self.round, 86_400)?;
        let cabinet = held(self.cabinet, 64)?;
        Some(Input {
            round,
            cabinet,
            field,
        })
    }
}

/// Reads what is at a name, and puts it there.
fn put_next(reader: &mut Reader<'_>, name: &str, plain: &mut Plain) -> Option<()>
    ensures ok { IfSome result (λ _. (depth : ℕ) → (d : Data) × (converted of_json (value depth reader.old) ≡ Some (d, reader.new)) × (plain_members plain.new ≡ put name.now d (plain_members plain.old))) }
    ensures shorter { IfSome result (λ _. length reader.new < length reader.old) }
{
    let token = reader.next()?;
    match token {
        Token::Number(text) => {
            let at = number_named(name)?;
            let whole = whole_of(text)?;
            plain.put_number(at, whole);
            Some(())
        }
        Token::Bool(flag) => {
            plain.put_flag(name, flag)?;
            Some(())
        }
        _ => None,
    }
}

/// The members up to the brace that closes an object.
fn members_of(reader: &mut Reader<'_>) -> Option<Plain>
    ensures ok { IfSome result (λ plain. (depth : ℕ) → converted (λ ms. of_members ms no_members) (members (value depth) (length reader.old) reader.old) ≡ Some (plain_members plain, reader.new)) }
    ensures shorter { IfSome result (λ _. length reader.new < length reader.old) }
{
    let mut plain = Plain::nothing();
    'members: loop {
        let name = match reader.next_key() {
            Ok(Some(name)) => name,
            Ok(None) => return Some(plain),
            Err(_) => return None,
        };
        put_next(reader, name, &mut plain)?;
    }
}

/// The input that is the reader's next value, where it is a plain one and without fault.
pub(crate) fn input_at(reader: &mut Reader<'_>, depth: usize) -> Option<Input>
    requires deep { 1 ≤ depth }
    ensures ok { IfSome result (λ input. (converted of_json (value depth reader.old) ≡ Some (object (input_members input), reader.new)) × InputFits input) }
    ensures shorter { IfSome result (λ _. length reader.new < length reader.old) }
{
    match reader.next() {
        Some(Token::BeginObject) => {
            let plain = members_of(reader)?;
            let input = plain.input()?;
            Some(input)
        }
        _ => None,
    }
}

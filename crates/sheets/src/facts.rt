// What the rules ask of a sheet, found once: each field's text is read into a few facts, and a rule is a test of facts.
ghost use Rattle.std.specs.Prelude.{◌≡◌, not, ℕ, length, replicate};
ghost use Rattle.texts.specs.Texts.{every, among, between, blank, number, ◌is◌};
ghost use Rattle.sheets.specs.Sheet.{sheet_size, given, text_of};
ghost use Rattle.sheets.specs.Forms.{inn10, digits10};
ghost use Rattle.sheets.specs.Lists.{accounts_a};
ghost use Rattle.sheets.specs.Working.Facts.{numbers_of, general_of, is_a, is_b, account_of, code_of, payer_of, form_of, in_set, groups_by, allowed_by, standing_by, standing_of, basis_of, document_of, day_of, fixed, facts_of, facts_in, Read};
ghost use Rattle.sheets.specs.declared.dates.Dates.{Dates};

use crate::dates::{Dates, Force, force_of};
use crate::entries::document_entry;
use crate::forms::{
    Status, Wanted, is_date, is_digits, is_digits_not_zero, is_document, is_inn10, is_inn12,
    is_kpp, is_letter_pair, is_pension, is_person, is_uin, wanted_by,
};
use crate::sheet::{SHEET_SIZE, text};
use texts::comparisons::{begins_with, equals, is_among};
use texts::digits::number;
use texts::parts::part;

// 14, 15 and 17 have their forms (rules 1 to 3).
#[derive(Clone, Copy)]
pub struct General {
    pub bik: bool,
    pub bank: bool,
    pub account: bool,
}

// Class A, class B; and of 17: the rouble's code 643 at its place, begins 03100, begins 03212.
#[derive(Clone, Copy)]
pub struct Account {
    pub a: bool,
    pub b: bool,
    pub home: bool,
    pub to03100: bool,
    pub to03212: bool,
}

// 22: "0", a UIN, four digits not all zero.
#[derive(Clone, Copy)]
pub struct Code {
    pub zero: bool,
    pub uin: bool,
    pub four: bool,
}

// 60: "0", a foreign code, an INN; and its digits.
#[derive(Clone, Copy)]
pub struct Payer {
    pub zero: bool,
    pub foreign: bool,
    pub inn10: bool,
    pub inn12: bool,
    pub five: bool,
    pub ten: bool,
    pub twelve: bool,
}

// A field that is "0" or has its full form.
#[derive(Clone, Copy)]
pub struct Form {
    pub zero: bool,
    pub full: bool,
}

// The groups of statuses that rules name: the customs group, those of rule 19, 31 and 33, those of rule 25, and single ones.
#[derive(Clone, Copy)]
pub struct Groups {
    pub customs: bool,
    pub treasury: bool,
    pub courts: bool,
    pub personal: bool,
    pub is01: bool,
    pub is13: bool,
    pub is31: bool,
}

// 101: blank, in rule 10's list, its groups, and the form of 60 that it wants.
#[derive(Clone, Copy)]
pub struct Standing {
    pub blank: bool,
    pub listed: bool,
    pub groups: Groups,
    pub wanted: Wanted,
}

// 106: blank, "0", "00", a letter pair.
#[derive(Clone, Copy)]
pub struct Basis {
    pub blank: bool,
    pub zero: bool,
    pub zeros: bool,
    pub letters: bool,
}

// 108: blank, as rule 17 has it, a person identifier, as rule 35 has it, "0", "00".
#[derive(Clone, Copy)]
pub struct Document {
    pub blank: bool,
    pub fit: bool,
    pub person: bool,
    pub pension: bool,
    pub zero: bool,
    pub zeros: bool,
}

// 109: blank, "0", "00", a date.
#[derive(Clone, Copy)]
pub struct Day {
    pub blank: bool,
    pub zero: bool,
    pub zeros: bool,
    pub date: bool,
}

// 14, 15 and 17; and none of 22, 60, 61, 102 to 105, 107 is blank.
#[derive(Clone, Copy)]
pub struct Banking {
    pub general: General,
    pub account: Account,
    pub given: bool,
}

// 22, 60, 61, 102, 103.
#[derive(Clone, Copy)]
pub struct Parties {
    pub code: Code,
    pub payer: Payer,
    pub payee: bool,
    pub kpp: Form,
    pub payeekpp: bool,
}

// 104, 105, 107.
#[derive(Clone, Copy)]
pub struct Classifiers {
    pub kbk: Form,
    pub oktmo: Form,
    pub office: Form,
}

// The last four are those that a filling can vary; the dates' part in it is what they allow.
#[derive(Clone, Copy)]
pub struct Facts {
    pub banking: Banking,
    pub parties: Parties,
    pub classifiers: Classifiers,
    pub force: Force,
    pub status: Standing,
    pub basis: Basis,
    pub document: Document,
    pub day: Day,
}

// What 17 begins with in class A is 03100, or one of the 64 numbers from 03212 on that are in this set, bit n for 03212 + n.
const ACCOUNTS_A: u64 = 1 << 0
    | 1 << 2
    | 1 << 10
    | 1 << 12
    | 1 << 20
    | 1 << 22
    | 1 << 30
    | 1 << 32
    | 1 << 40
    | 1 << 50
    | 1 << 60;

const ACCOUNTS_B: [usize; 3] = [40503, 40603, 40703];

const BANKS_B: [usize; 6] = [000, 001, 002, 003, 004, 005];

// All statuses; rule 10's list, which completion goes through as well, is those of them that the date allows.
pub(crate) const STATUSES: [u8; 23] = [
    01, 02, 03, 04, 05, 06, 07, 08, 13, 15, 16, 17, 19, 20, 23, 24, 27, 28, 29, 30, 31, 32, 33,
];

// Sets of statuses, bit n for status n: all, and the groups that rules name.
const ALL_SET: u64 = 1 << 1
    | 1 << 2
    | 1 << 3
    | 1 << 4
    | 1 << 5
    | 1 << 6
    | 1 << 7
    | 1 << 8
    | 1 << 13
    | 1 << 15
    | 1 << 16
    | 1 << 17
    | 1 << 19
    | 1 << 20
    | 1 << 23
    | 1 << 24
    | 1 << 27
    | 1 << 28
    | 1 << 29
    | 1 << 30
    | 1 << 31
    | 1 << 32
    | 1 << 33;

const CUSTOMS: u64 = 1 << 6 | 1 << 7 | 1 << 16 | 1 << 17 | 1 << 28 | 1 << 30 | 1 << 32;

const TREASURY: u64 = 1 << 1
    | 1 << 2
    | 1 << 4
    | 1 << 6
    | 1 << 7
    | 1 << 13
    | 1 << 16
    | 1 << 17
    | 1 << 28
    | 1 << 30
    | 1 << 32;

const COURTS: u64 = 1 << 31 | 1 << 33;

const PERSONAL: u64 = 1 << 3 | 1 << 19 | 1 << 20 | 1 << 24;

fn general_of<'a>(bik: &'a [u8], bank: &'a [u8], account: &'a [u8]) -> General
    ensures { result ≡ general_of bik.now bank.now account.now }
{
    General {
        bik: is_digits::<9>(bik),
        bank: (bank.len() == 0) | is_digits::<20>(bank),
        account: is_digits::<20>(account),
    }
}

// What 17 begins with in class A.
fn is_lead_a(lead: usize) -> bool
    ensures { result ≡ among lead (numbers_of 5 accounts_a) }
{
    if lead < 03212 {
        return 03100 == lead;
    }
    is_in(lead - 03212, ACCOUNTS_A)
}

// Class A by whether 15 is such an account, and the number that 17 begins with.
fn is_a(bank: bool, account: usize) -> bool
    ensures { result ≡ is_a bank account }
{
    bank & is_lead_a(account)
}

// Class B by digits 7 to 9 of 14, the number that 17 begins with, and its 14th digit. Most accounts begin with a lower number.
fn is_b<'a>(bik: &'a [u8], account: &'a [u8], lead: usize) -> bool
    ensures { result ≡ is_b (number 3 (between bik.now 6 9)) lead (between account.now 13 14 is "4") }
{
    if lead < 40204 {
        return false;
    }
    let bank = is_among(number::<3>(part(bik, 6, 9)), &BANKS_B);
    let four = equals(part(account, 13, 14), b"4");
    bank & ((40204 == lead) | (is_among(lead, &ACCOUNTS_B) & four))
}

fn account_of<'a>(bik: &'a [u8], bank: &'a [u8], account: &'a [u8]) -> Account
    ensures { result ≡ account_of bik.now bank.now account.now }
{
    let lead = number::<5>(part(account, 0, 5));
    Account {
        a: is_a(begins_with(bank, b"40102"), lead),
        b: is_b(bik, account, lead),
        home: equals(part(account, 5, 8), b"643"),
        to03100: 03100 == lead,
        to03212: 03212 == lead,
    }
}

fn code_of(t: &[u8]) -> Code
    ensures { result ≡ code_of t.now }
{
    Code {
        zero: equals(t, b"0"),
        uin: is_uin(t),
        four: is_digits_not_zero::<4>(t),
    }
}

// Ten digits; an INN of ten is not looked at again.
fn has_ten(t: &[u8], inn: bool) -> bool
    requires { inn ≡ inn10 t.now }
    ensures { result ≡ digits10 t.now }
{
    inn || is_digits::<10>(t)
}

fn payer_of(t: &[u8]) -> Payer
    ensures { result ≡ payer_of t.now }
{
    let inn10 = is_inn10(t);
    Payer {
        zero: equals(t, b"0"),
        foreign: is_digits_not_zero::<5>(t),
        inn10,
        inn12: is_inn12(t),
        five: is_digits::<5>(t),
        ten: has_ten(t, inn10),
        twelve: is_digits::<12>(t),
    }
}

fn form_of(t: &[u8], full: bool) -> Form
    ensures { result ≡ form_of t.now full }
{
    Form {
        zero: equals(t, b"0"),
        full,
    }
}

// A number below 64 is in a set of such numbers.
fn is_in(n: usize, set: u64) -> bool
    ensures { result ≡ in_set set n }
{
    n < 64 && (set >> n) % 2 == 1
}

fn groups_of(status: Status) -> Groups
    ensures { result ≡ groups_by status.0 }
{
    let n = status.0;
    Groups {
        customs: is_in(n, CUSTOMS),
        treasury: is_in(n, TREASURY),
        courts: is_in(n, COURTS),
        personal: is_in(n, PERSONAL),
        is01: 01 == n,
        is13: 13 == n,
        is31: 31 == n,
    }
}

// The date allows a status, by its number.
fn is_allowed(status: Status, force: Force) -> bool
    ensures { result ≡ allowed_by force status.0 }
{
    let n = status.0;
    (!(2 == n) | force.s02) & ((!(32 == n) | force.s32) & (!(33 == n) | force.s33))
}

// 101 by its number, which is 100 where it is not two digits, and whether it is in rule 10's list.
pub(crate) fn standing_by(status: Status, blank: bool, listed: bool) -> Standing
    ensures { result ≡ standing_by status.0 blank listed }
{
    Standing {
        blank,
        listed,
        groups: groups_of(status),
        wanted: wanted_by(status),
    }
}

pub(crate) fn standing_of(t: &[u8], force: Force) -> Standing
    ensures { result ≡ standing_of force t.now }
{
    let n = number::<2>(t);
    let listed = is_in(n, ALL_SET) & is_allowed(Status(n), force);
    standing_by(Status(n), t.len() == 0, listed)
}

fn basis_of(t: &[u8]) -> Basis
    ensures { result ≡ basis_of t.now }
{
    Basis {
        blank: t.len() == 0,
        zero: equals(t, b"0"),
        zeros: equals(t, b"00"),
        letters: is_letter_pair(t),
    }
}

// Most have an entry of its list.
fn document_of(t: &[u8]) -> Document
    ensures { result ≡ document_of t.now }
{
    if equals(t, b"0") {
        return document_entry(0);
    }
    if equals(t, b"00") {
        return document_entry(1);
    }
    Document {
        blank: t.len() == 0,
        fit: is_document(t),
        person: is_person(t),
        pension: is_pension(t),
        zero: equals(t, b"0"),
        zeros: equals(t, b"00"),
    }
}

fn day_of(t: &[u8]) -> Day
    ensures { result ≡ day_of t.now }
{
    Day {
        blank: t.len() == 0,
        zero: equals(t, b"0"),
        zeros: equals(t, b"00"),
        date: is_date(t),
    }
}

pub fn is_given(sheet: &[u8], slot: u8) -> bool
    ensures { result ≡ given sheet.now slot }
{
    !(text(sheet, slot).len() == 0)
}

// The slots of 22, 60, 61, 102 to 105 and 107.
const FIXED: [u8; 8] = [3, 4, 5, 7, 8, 9, 10, 12];

fn all_given(sheet: &[u8]) -> bool
    ensures { result ≡ every (λ (k : ℕ). not (blank (text_of sheet.now k))) fixed }
{
    FIXED.iter().all(|slot| is_given(sheet, *slot))
}

fn banking_of(sheet: &[u8]) -> Banking
    ensures { (D : Dates) → result ≡ (facts_of D sheet.now).banking }
{
    let bik = text(sheet, 0);
    let bank = text(sheet, 1);
    let account = text(sheet, 2);
    Banking {
        general: general_of(bik, bank, account),
        account: account_of(bik, bank, account),
        given: all_given(sheet),
    }
}

fn parties_of(sheet: &[u8]) -> Parties
    ensures { (D : Dates) → result ≡ (facts_of D sheet.now).parties }
{
    let code = code_of(text(sheet, 3));
    let payer = payer_of(text(sheet, 4));
    let payee = is_inn10(text(sheet, 5));
    let t = text(sheet, 7);
    let kpp = form_of(t, is_kpp(t));
    let payeekpp = is_kpp(text(sheet, 8));
    Parties {
        code,
        payer,
        payee,
        kpp,
        payeekpp,
    }
}

fn classifiers_of(sheet: &[u8]) -> Classifiers
    ensures { (D : Dates) → result ≡ (facts_of D sheet.now).classifiers }
{
    let kbk = text(sheet, 9);
    let oktmo = text(sheet, 10);
    let office = text(sheet, 12);
    Classifiers {
        kbk: form_of(kbk, is_digits_not_zero::<20>(kbk)),
        oktmo: form_of(oktmo, is_digits_not_zero::<8>(oktmo)),
        office: form_of(office, is_digits::<8>(office)),
    }
}

// A function of its own: the compiler makes an array at the head of the function that has it.
#[cycle(empty_facts_facts_of)]
fn empty_facts(dates: Dates) -> Facts
    ensures { result ≡ facts_of dates (replicate sheet_size 0) }
{
    facts_of(&[0u8; SHEET_SIZE], dates)
}

// The test of the size tells the compiler where every field stands. What has another size has the facts of an empty sheet.
#[cycle(empty_facts_facts_of)]
pub fn facts_of(sheet: &[u8], dates: Dates) -> Facts
    ensures { (length sheet.now ≡ sheet_size → Read dates result sheet.now) × (result ≡ facts_in dates sheet.now) }
{
    if sheet.len() != SHEET_SIZE {
        return empty_facts(dates);
    }
    let parties = parties_of(sheet);
    let classifiers = classifiers_of(sheet);
    let force = force_of(dates);
    let status = standing_of(text(sheet, 6), force);
    let basis = basis_of(text(sheet, 11));
    let document = document_of(text(sheet, 13));
    let day = day_of(text(sheet, 14));
    let banking = banking_of(sheet);
    Facts {
        banking,
        parties,
        classifiers,
        force,
        status,
        basis,
        document,
        day,
    }
}

//! Which entry of a schedule holds of a day. Days are counted from 1996-01-01.
#![tactic(auto, unfolding(crate::specs::PlanOf::plan_of))]

ghost use Rattle.std.specs.Prelude.{◌≡◌, ◌≤◌, IfSome};
ghost use Rattle.tsb_plan.specs.Holding.{better, date_of, dates_in, dates_of, dates_of_month, holding, length_of, matches, one_if, sevenths, weekday_of, weekdays_in};
ghost use Rattle.tsb_plan.specs.PlanOf.{plan_of};

use crate::plan::Plan;
use crate::plan::schedule::ENTRIES;
use tsb_types::calendar::{ClockDate, date_after, days_before};

/// The days of four years.
const FOUR_YEARS: u32 = 1461;

/// The date of a day, without its year.
fn date_of(day: u32) -> ClockDate
    ensures date { result ≡ date_of day }
    ensures month { result.month ≤ 12 }
    ensures day { result.day ≤ 31 }
{
    date_after(day % FOUR_YEARS)
}

/// The weekday of a day: 1 Sunday to 7 Saturday.
fn weekday_of(day: u32) -> u32
    requires { day ≤ 1000000 }
    ensures value { result ≡ weekday_of day }
    ensures within { result ≤ 7 }
{
    (day + 1) % 7 + 1
}

/// How many days a month, 1 to 12, of a leap year has.
pub fn length_of(month: u32) -> u32
    requires from { 1 ≤ month }
    requires to { month ≤ 12 }
    ensures value { result ≡ length_of month }
    ensures within { result ≤ 31 }
{
    days_before(true, month + 1).saturating_sub(days_before(true, month))
}

/// 1 for true.
fn one_if(is_so: bool) -> u32
    ensures value { result ≡ one_if is_so }
    ensures within { result ≤ 1 }
{
    if is_so { 1 } else { 0 }
}

impl Plan {
    /// Whether an entry is used, and names the month, the weekday and the day of the month of a day.
    pub fn matches(&self, entry: u32, day: u32) -> bool
        requires from { 1 ≤ entry }
        requires to { entry ≤ 32 }
        requires day { day ≤ 1000000 }
        ensures { result ≡ matches (plan_of self.now) entry day }
    {
        if self.day_plan_of(entry) == 0 {
            return false;
        }
        let date = date_of(day);
        self.names_month(entry, date.month)
            && self.names_weekday(entry, weekday_of(day))
            && self.names_date(entry, date.day)
    }

    /// How many weekdays an entry names.
    fn weekdays_in(&self, entry: u32) -> u32
        requires from { 1 ≤ entry }
        requires to { entry ≤ 32 }
        ensures value { result ≡ weekdays_in (plan_of self.now) entry }
        ensures within { result ≤ 7 }
    {
        let mut sum = 0;
        for weekday in 1..8u32 {
            sum += one_if(self.names_weekday(entry, weekday));
        }
        sum
    }

    /// How many days of a month of so many days an entry names.
    fn dates_in(&self, entry: u32, length: u32) -> u32
        requires from { 1 ≤ entry }
        requires to { entry ≤ 32 }
        requires length { length ≤ 31 }
        ensures value { result ≡ dates_in (plan_of self.now) entry length }
        ensures within { result ≤ length }
    {
        let mut sum = 0;
        for day in 1..length + 1 {
            sum += one_if(self.names_date(entry, day));
        }
        sum
    }

    /// How many days of a month an entry names, in a leap year; 0 where it does not name the month.
    fn dates_of_month(&self, entry: u32, month: u32) -> u32
        requires from { 1 ≤ entry }
        requires to { entry ≤ 32 }
        requires month_from { 1 ≤ month }
        requires month_to { month ≤ 12 }
        ensures value { result ≡ dates_of_month (plan_of self.now) entry month }
        ensures within { result ≤ 31 }
    {
        if self.names_month(entry, month) {
            self.dates_in(entry, length_of(month))
        } else {
            0
        }
    }

    /// How many days of all its months an entry names, in a leap year.
    fn dates_of(&self, entry: u32) -> u32
        requires from { 1 ≤ entry }
        requires to { entry ≤ 32 }
        ensures value { result ≡ dates_of (plan_of self.now) entry }
        ensures within { result ≤ 372 }
    {
        let mut sum = 0;
        for month in 1..13u32 {
            sum += self.dates_of_month(entry, month);
        }
        sum
    }

    /// On how many days of a leap year an entry matches, in sevenths of a day.
    #[tactic(auto, unfolding(crate::specs::PlanOf::plan_of, crate::specs::Holding::sevenths))]
    pub fn sevenths(&self, entry: u32) -> u32
        requires from { 1 ≤ entry }
        requires to { entry ≤ 32 }
        ensures value { result ≡ sevenths (plan_of self.now) entry }
    {
        self.weekdays_in(entry) * self.dates_of(entry)
    }

    /// The better of an entry, where there is one, and of one with a greater number, for a day.
    fn better(&self, day: u32, best: Option<u32>, entry: u32) -> Option<u32>
        requires from { 1 ≤ entry }
        requires to { entry ≤ 32 }
        requires best_from { IfSome best (λ b. 1 ≤ b) }
        requires best_to { IfSome best (λ b. b ≤ 32) }
        requires day { day ≤ 1000000 }
        ensures value { result ≡ better (plan_of self.now) day best entry }
        ensures from { IfSome result (λ b. 1 ≤ b) }
        ensures to { IfSome result (λ b. b ≤ 32) }
    {
        if !self.matches(entry, day) {
            return best;
        }
        match best {
            None => Some(entry),
            Some(best) => Some(if self.sevenths(entry) < self.sevenths(best) {
                entry
            } else {
                best
            }),
        }
    }

    /// The entry that holds of a day: of those that match it the one with the fewest days a year, and of those the first
    /// (profile).
    #[tactic(auto, unfolding(crate::specs::PlanOf::plan_of, crate::specs::Holding::holding))]
    pub fn holding(&self, day: u32) -> Option<u32>
        requires day { day ≤ 1000000 }
        ensures value { result ≡ holding (plan_of self.now) day }
        ensures from { IfSome result (λ e. 1 ≤ e) }
        ensures to { IfSome result (λ e. e ≤ 32) }
    {
        let mut found = None;
        for entry in 1..ENTRIES + 1 {
            found = self.better(day, found, entry);
        }
        found
    }
}

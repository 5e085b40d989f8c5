//! The plans of the runs.

use crate::fault::Fault;
use anyhow::Result as Anyhow;
use std::alloc::Global;
use tsb_lines::next_line;
use tsb_objects::Checked;
use tsb_plan_text::read_plan;

/// Plans that break no rule, numbered from 0.
#[derive(Drop)]
pub struct Plans {
    plans: Vec<Checked>,
}

impl Plans {
    /// The plans whose texts are in lines, one in each.
    pub fn read(alloc: Global, text: &[u8]) -> Anyhow<Plans> {
        let mut plans = Vec::new(alloc);
        let mut rest = text;
        for _line in 0..text.len() {
            let (line, behind) = next_line(rest);
            if !line.is_empty() {
                plans.push(read_plan(alloc, line)?)?;
            }
            match behind {
                Some(behind) => rest = behind,
                None => break,
            }
        }
        Ok(Plans { plans })
    }

    /// The plan of this number.
    pub fn get(&self, number: u32) -> Result<&Checked, Fault> {
        self.plans.get(number as usize).ok_or(Fault::Malformed)
    }
}

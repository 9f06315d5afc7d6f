//! Tests that cross crates: of the whole command, over files and a sink in memory, and of miters.
#![tactic(auto)]

#[cfg(test)]
mod altered_files;
#[cfg(test)]
mod answers;
#[cfg(test)]
mod endless;
#[cfg(test)]
mod evidence_files;
#[cfg(test)]
mod fronts;
#[cfg(test)]
mod layouts;
#[cfg(test)]
mod limits;
#[cfg(test)]
mod made_evidence;
#[cfg(test)]
mod memory;
#[cfg(test)]
mod miters;
#[cfg(test)]
mod values;

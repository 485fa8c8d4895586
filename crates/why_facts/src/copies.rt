use device_ids::{Text, TextList, WantOfMemory};
use inf_reader::{Inf, ModelLine, ModelLines};
use std::alloc::Global;

/// Texts copied.
fn copied_texts(alloc: Global, from: &TextList) -> Result<TextList, WantOfMemory> {
    let mut texts = TextList::new(alloc);
    for at in 0..from.len() {
        texts.push(from.get(at).copy(alloc)?)?;
    }
    Ok(texts)
}

/// A service copied, if there is one.
fn copied_service(alloc: Global, from: &Option<Text>) -> Result<Option<Text>, WantOfMemory> {
    match from {
        Some(service) => Ok(Some(service.copy(alloc)?)),
        None => Ok(None),
    }
}

/// A models line copied.
fn copied_line(alloc: Global, from: &ModelLine) -> Result<ModelLine, WantOfMemory> {
    let ids = copied_texts(alloc, &from.ids)?;
    let service = copied_service(alloc, &from.service)?;
    let lower = copied_texts(alloc, &from.lower)?;
    let upper = copied_texts(alloc, &from.upper)?;
    Ok(ModelLine {
        line: from.line,
        ids,
        score: from.score,
        service,
        lower,
        upper,
    })
}

/// An INF copied.
fn copied_inf(alloc: Global, from: &Inf) -> Result<Inf, WantOfMemory> {
    let mut lines = ModelLines::new(alloc);
    for at in 0..from.lines.len() {
        lines.push(copied_line(alloc, from.lines.get(at))?)?;
    }
    Ok(Inf {
        date: from.date,
        version: from.version,
        lines,
    })
}

/// INFs copied, so that notes can look at them while a manager has its own. Cost: their length. This project's own.
pub fn copied_infs(alloc: Global, from: &[Inf]) -> Result<Vec<Inf>, WantOfMemory> {
    let mut infs = Vec::new(alloc);
    for inf in from {
        infs.push(copied_inf(alloc, inf)?)?;
    }
    Ok(infs)
}

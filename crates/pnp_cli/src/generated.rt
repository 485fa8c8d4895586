//! The generated script and the generated INF.
ghost use Rattle.std.specs.Prelude.{◌≡◌, ◌≤◌, ◌++◌, IfOk, OnOk};
ghost use Rattle.pnp_cli.specs.Generated.{gen_script, gen_inf, device_line, need_of};

use device_ids::WantOfMemory;
use pnp_labels::push_decimal;
use std::alloc::Global;

/// Each device of which this divides the number needs one place alone: this project's own.
const FIFTY: u64 = 50;

/// Appends what the k-th device needs.
fn add_need(text: &mut Vec<u8>, k: u64) -> Result<(), WantOfMemory>
    requires { k ≤ 400 }
    ensures { OnOk result (text.new.items ≡ text.old.items ++ need_of k) }
{
    if k % FIFTY != 0 {
        text.extend_from_slice(b"need=port:4096-65535/8@8;irq:16-23:shared")?;
        return Ok(());
    }
    let first = 4096 + 8 * (k / FIFTY).saturating_sub(1);
    text.extend_from_slice(b"need=port:")?;
    push_decimal(text, first)?;
    text.extend_from_slice(b"-")?;
    push_decimal(text, first + 7)?;
    text.extend_from_slice(b"/8@8")?;
    Ok(())
}

/// Appends the line of the k-th device.
fn add_line(text: &mut Vec<u8>, k: u64) -> Result<(), WantOfMemory>
    requires { k ≤ 400 }
    ensures { OnOk result (text.new.items ≡ text.old.items ++ device_line k) }
{
    text.extend_from_slice(b"plug GEN\\BUS\\0 GEN\\DEV ")?;
    push_decimal(text, k)?;
    text.extend_from_slice(b" ")?;
    add_need(text, k)?;
    text.push(b'\n')?;
    Ok(())
}

/// The generated script: two drivers, a bus, and so many devices on it, each of which needs ports and a shared interrupt, but every
/// fiftieth one place alone. Condition: at most 400 devices. Cost: their number. This project's own.
#[tactic(auto, unfolding(crate::specs::Generated::gen_script))]
pub fn gen_script(alloc: Global, n: u64) -> Result<Vec<u8>, WantOfMemory>
    requires { n ≤ 400 }
    ensures { IfOk result (λ text. text.items ≡ gen_script n) }
{
    let mut text = Vec::from_slice(
        alloc,
        b"driver bus steady\ndriver dev steady\nplug HTREE\\ROOT\\0 GEN\\BUS 0\n",
    )?;
    for k in 0..n {
        add_line(&mut text, k + 1)?;
    }
    Ok(text)
}

/// The generated INF: the drivers of the generated script's bus and devices. This project's own.
#[tactic(auto, unfolding(crate::specs::Generated::gen_inf))]
pub fn gen_inf(alloc: Global) -> Result<Vec<u8>, WantOfMemory>
    ensures { IfOk result (λ text. text.items ≡ gen_inf) }
{
    Vec::from_slice(
        alloc,
        b"[Version]\nSignature=\"$Windows NT$\"\n[Manufacturer]\nGen=M\n[M]\nBus=B,GEN\\BUS\nDev=D,GEN\\DEV\n[B.Services]\nAddService=bus,2,S\n[D.Services]\nAddService=dev,2,S\n",
    )
}

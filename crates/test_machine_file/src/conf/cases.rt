// The cases of the tests.

/// A file that is read, by its keys.
pub static USUAL: &str = "memory|memory = 4096
swap|swap = 0
segments|segments = 1
budget|budget = 0
quantum|quantum = 1
avail|
modules|modules = ['m']
process|process = [{ module = 'm' }]
ordinals|
script|
shim|
";

/// A key, the text that stands in place of its usual line, and what the file is refused for, the first of its faults. The text of
/// `file` stands alone. A text `a~b~3~c` is `abbbc`, and ` / ` ends a line.
pub static CASES: &str = "
memory:  => Missing(Memory)
memory: memory = 'x' => BadValue(Memory)
memory: memory = 1.0 => BadValue(Memory)
memory: memory = 1979-05-27 => BadValue(Memory)
memory: memory = true => BadValue(Memory)
memory: memory = [1] => BadValue(Memory)
memory: memory = { a = 1 } => BadValue(Memory)
memory: memory = 4096 => ok
memory: memory = 16777216 => ok
memory: memory = 4095 => Limit(Memory)
memory: memory = 16777217 => Limit(Memory)
memory: memory = 100 => Limit(Memory)
memory: memory = 4080 => Limit(Memory)
memory: memory = 4100 => Limit(Memory)
memory: memory = 16777232 => Limit(Memory)
memory: memory = -4096 => Limit(Memory)
memory: memory = 9223372036854775807 => Limit(Memory)
memory: memory = 9223372036854775808 => BadToml
memory: memory = 4096 / memory = 4096 => BadToml
memory: memory =  => BadToml
swap:  => Missing(Swap)
swap: swap = 'x' => BadValue(Swap)
swap: swap = 1.0 => BadValue(Swap)
swap: swap = 1979-05-27 => BadValue(Swap)
swap: swap = true => BadValue(Swap)
swap: swap = [1] => BadValue(Swap)
swap: swap = { a = 1 } => BadValue(Swap)
swap: swap = 0 => ok
swap: swap = 65536 => ok
swap: swap = -1 => Limit(Swap)
swap: swap = 65537 => Limit(Swap)
segments:  => Missing(Segments)
segments: segments = 'x' => BadValue(Segments)
segments: segments = 1.0 => BadValue(Segments)
segments: segments = 1979-05-27 => BadValue(Segments)
segments: segments = true => BadValue(Segments)
segments: segments = [1] => BadValue(Segments)
segments: segments = { a = 1 } => BadValue(Segments)
segments: segments = 1 => ok
segments: segments = 65535 => ok
segments: segments = 0 => Limit(Segments)
segments: segments = 65536 => Limit(Segments)
budget:  => Missing(Budget)
budget: budget = 'x' => BadValue(Budget)
budget: budget = 1.0 => BadValue(Budget)
budget: budget = 1979-05-27 => BadValue(Budget)
budget: budget = true => BadValue(Budget)
budget: budget = [1] => BadValue(Budget)
budget: budget = { a = 1 } => BadValue(Budget)
budget: budget = 0 => ok
budget: budget = 4000000000 => ok
budget: budget = -1 => Limit(Budget)
budget: budget = 4000000001 => Limit(Budget)
quantum:  => Missing(Quantum)
quantum: quantum = 'x' => BadValue(Quantum)
quantum: quantum = 1.0 => BadValue(Quantum)
quantum: quantum = 1979-05-27 => BadValue(Quantum)
quantum: quantum = true => BadValue(Quantum)
quantum: quantum = [1] => BadValue(Quantum)
quantum: quantum = { a = 1 } => BadValue(Quantum)
quantum: quantum = 1 => ok
quantum: quantum = 1000000 => ok
quantum: quantum = 0 => Limit(Quantum)
quantum: quantum = 1000001 => Limit(Quantum)
avail: avail = 'x' => BadValue(Avail)
avail: avail = 1.0 => BadValue(Avail)
avail: avail = 1979-05-27 => BadValue(Avail)
avail: avail = true => BadValue(Avail)
avail: avail = [1] => BadValue(Avail)
avail: avail = { a = 1 } => BadValue(Avail)
avail: avail = 0 => ok
avail: avail = 4294967295 => ok
avail: avail = -1 => Limit(Avail)
avail: avail = 4294967296 => Limit(Avail)
modules:  => Missing(Modules)
modules: modules = 'm' => BadValue(Modules)
modules: modules = 1 => BadValue(Modules)
modules: modules = ['m', 1] => BadValue(Modules)
modules: modules = ['', 1] => BadValue(Modules)
modules: modules = [['m']] => BadValue(Modules)
modules: modules = ['m', \"a\\u0000\"] => BadValue(Modules)
modules: modules = { m = 'm' } => BadValue(Modules)
modules: modules = [] => Limit(Modules)
modules: modules = [''] => Limit(Modules)
modules: modules = ['m', ''] => Limit(Modules)
process:  => Missing(Process)
process: process = { module = 'm' } => BadValue(Process)
process: process = ['m'] => BadValue(Process)
process: process = [{}, 1] => BadValue(Process)
process: process = [] => Limit(Process)
process: process = [{}] => Missing(ProcessModule)
process: process = [{ module = 1 }] => BadValue(ProcessModule)
process: process = [{ module = \"a\\u0000\" }] => BadValue(ProcessModule)
process: process = [{ module = '' }] => Limit(ProcessModule)
process: process = [{ module = '', arguments = 1 }] => Limit(ProcessModule)
process: process = [{ module = 'm', arguments = 1 }] => BadValue(ProcessArguments)
process: process = [{ module = 'm', arguments = \"\\u0000\" }] => BadValue(ProcessArguments)
process: process = [{ module = 'm', environment = 1, arguments = 1 }] => BadValue(ProcessArguments)
process: process = [{ module = 'm', arguments = 1 }, {}] => BadValue(ProcessArguments)
process: process = [{ module = 'm' }, {}] => Missing(ProcessModule)
process: process = [{ module = 'm', environment = 'x' }] => BadValue(ProcessEnvironment)
process: process = [{ module = 'm', environment = ['a', 1] }] => BadValue(ProcessEnvironment)
process: process = [{ module = 'm', environment = [\"\\u0000\"] }] => BadValue(ProcessEnvironment)
process: process = [{ module = 'm', environment = [] }] => ok
ordinals: ordinals = 1 => BadValue(Ordinals)
ordinals: ordinals = ['DosExit'] => BadValue(Ordinals)
ordinals: ordinals = {} => ok
ordinals: ordinals = { DosWrite = 1 } => ok
ordinals: ordinals = { DosFreeModule = 65535 } => ok
ordinals: ordinals = { dosWrite = 1 } => BadValue(Ordinals)
ordinals: ordinals = { '' = 1 } => BadValue(Ordinals)
ordinals: ordinals = { DosWrit = 1 } => BadValue(Ordinals)
ordinals: ordinals = { DosWrite = 0 } => Limit(Ordinals)
ordinals: ordinals = { DosWrite = 65536 } => Limit(Ordinals)
ordinals: ordinals = { DosWrite = '1' } => BadValue(Ordinals)
ordinals: ordinals = { DosExit = 1, DosWrite = 1 } => BadValue(Ordinals)
ordinals: ordinals = { DosWrite = 0, DosExit = 'x' } => BadValue(Ordinals)
ordinals: ordinals = { DosWrite = 'x', DosExit = 0 } => Limit(Ordinals)
script: script = '1:1' => BadValue(Script)
script: script = [] => ok
script: script = ['1:1'] => ok
script: script = ['65535:4000000000'] => ok
script: script = ['discard'] => ok
script: script = ['1:1', 'discard', 'discard'] => ok
script: script = ['Discard'] => BadValue(Script)
script: script = ['discard '] => BadValue(Script)
script: script = ['discard:1'] => BadValue(Script)
script: script = ['discards'] => BadValue(Script)
script: script = ['1'] => BadValue(Script)
script: script = ['1:'] => BadValue(Script)
script: script = [':1'] => BadValue(Script)
script: script = [':'] => BadValue(Script)
script: script = [''] => BadValue(Script)
script: script = ['01:5'] => BadValue(Script)
script: script = ['1:05'] => BadValue(Script)
script: script = ['00:1'] => BadValue(Script)
script: script = ['1:1:1'] => BadValue(Script)
script: script = [' 1:1'] => BadValue(Script)
script: script = ['1:1 '] => BadValue(Script)
script: script = ['+1:1'] => BadValue(Script)
script: script = ['1:-1'] => BadValue(Script)
script: script = ['a:1'] => BadValue(Script)
script: script = ['1:0x1'] => BadValue(Script)
script: script = ['discard', '1'] => BadValue(Script)
script: script = [\"1:1\\u0000\"] => BadValue(Script)
script: script = [1] => BadValue(Script)
script: script = ['0:5'] => Limit(Script)
script: script = ['1:0'] => Limit(Script)
script: script = ['65536:1'] => Limit(Script)
script: script = ['1:4000000001'] => Limit(Script)
script: script = ['1:9999999999999999999999999'] => Limit(Script)
script: script = ['9999999999999999999999999:1'] => Limit(Script)
script: script = ['0:5', '01:5'] => Limit(Script)
script: script = ['01:5', '0:5'] => BadValue(Script)
script: script = ['1:1', 1, '0:5'] => BadValue(Script)
script: script = ['0:x'] => BadValue(Script)
script: script = ['x:0'] => BadValue(Script)
script: script = ['0:'] => BadValue(Script)
script: script = [':0'] => BadValue(Script)
script: script = ['70000:01'] => BadValue(Script)
script: script = ['01:70000'] => BadValue(Script)
script: script = ['0:0'] => Limit(Script)
script: script = ['9999999999999999999999999:x'] => BadValue(Script)
file:  => Missing(Memory)
file: script = [1] => Missing(Memory)
file: memory = 100 / swap = 'x' => Limit(Memory)
file: swap = 'x' / memory = 100 => Limit(Memory)
file: memory = 'x' => BadValue(Memory)
file: memory = 4096 / budget = -1 => Missing(Swap)
file: memory = 4096 / swap = -1 / segments = 'x' => Limit(Swap)
file: memory = 4096 / swap = 0 / segments = 0 / budget = 'x' => Limit(Segments)
file: memory = 4096 / swap = 0 / segments = 1 / budget = 0 / quantum = 1 / avail = -1 => Limit(Avail)
file: memory = 4096 / swap = 0 / segments = 1 / budget = 0 / quantum = 1 / process = [] / script = 1 => Missing(Modules)
file: memory = 4096 / swap = 0 / segments = 1 / budget = 0 / quantum = 1 / modules = ['m'] / ordinals = 1 / script = 1 => Missing(Process)
file: memory = 4096 / swap = 0 / segments = 1 / budget = 0 / quantum = 1 / modules = ['m'] / process = [{ module = 'm' }] / script = 1 / ordinals = 1 => BadValue(Ordinals)
modules: modules = [~'m',~64~] => ok
modules: modules = [~'m',~65~] => Limit(Modules)
modules: modules = ['~n~255~'] => ok
modules: modules = ['~n~256~'] => Limit(Modules)
process: process = [~{ module = 'm' },~64~] => ok
process: process = [~{ module = 'm' },~65~] => Limit(Process)
process: process = [~{},~65~] => Limit(Process)
process: process = [{ module = '~n~255~' }] => ok
process: process = [{ module = '~n~256~' }] => Limit(ProcessModule)
process: process = [{ module = 'm', arguments = '~n~65531~' }] => ok
process: process = [{ module = 'm', arguments = '~n~65532~' }] => Limit(ProcessEnvironment)
process: process = [{ module = 'm', environment = ['~n~65530~'] }] => ok
process: process = [{ module = 'm', environment = ['~n~65531~'] }] => Limit(ProcessEnvironment)
process: process = [{ module = 'm', environment = [~'abc',~16382~'12'] }] => ok
process: process = [{ module = 'm', environment = [~'abc',~16382~'123'] }] => Limit(ProcessEnvironment)
shim: shim = 'SHIM' => ok
shim: shim = 1 => BadValue(Shim)
shim: shim = ['SHIM'] => BadValue(Shim)
shim: shim = \"a\\u0000\" => BadValue(Shim)
shim: shim = '' => Limit(Shim)
shim: shim = '~n~255~' => ok
shim: shim = '~n~256~' => Limit(Shim)
script: script = [1] / shim = 1 => BadValue(Script)
script: script = [~'1:1',~100000~] => ok
script: script = [~'1:1',~100001~] => Limit(Script)
script: script = [~'1:1',~100001~'01:5'] => BadValue(Script)
";
